// The entry point [trustees].
ghost use Rattle.std.specs.Prelude.{◌≡◌, ◌+◌};
ghost use Rattle.basics.specs.Lists.{tabulate};
ghost use Rattle.jury.specs.ClosingBytes.{eight_bytes};
ghost use Rattle.trustee_shares.specs.Shares.{opened, part};
ghost use Rattle.trustee_shares.specs.Views.{piece};
ghost use Rattle.trustees.specs.inner.Sizes.{ClosingFits};
ghost use Rattle.trustees.specs.Result.{TrusteesResult, trustees_result, tallied_outcome, tallied_closing};

use crate::test::LentTables;
use gates::list::ListSize;
use jury::reason::Refusal;
use jury::shape::{ClosingBytes, Shape};

// G and C of the list, and the opened closing bits, which are 0 from place k on.
#[derive(Drop)]
pub struct Tallied {
    pub size: ListSize,
    pub closing: ClosingBytes,
}

// Opens the closing bits, which are the last in each trustee's piece of the published table.
fn open_closing(t: usize, size: usize, first: usize, k: usize, published: &[u8]) -> ClosingBytes
    requires { ClosingFits t size first k published.now }
    ensures { result ≡ eight_bytes (tabulate k
        (λ j. opened t (λ p. part (piece size published.now p) (first + j)))) }
{
    let mut closing = [0u8; Shape::MOST_CANDIDATES];
    for j in 0..k {
        closing[j] = trustee_gates::table::open(published, size, t, first + j);
    }
    closing
}

// Runs a list on ballots that t trustees hold in parts, with a dealt triple for each conditional gate. Meanwhile
// the wire parts together reveal every wire; they are emptied after the closing bits are published.
// What is lent stays apart, as C hands it over.
pub fn run(
    shape: Shape,
    table: &[u32],
    ballots: &[u8],
    t: usize,
    shares: &[u8],
    triples: &[u8],
    wires: &mut [u8],
    published: &mut [u8],
) -> Result<Tallied, Refusal>
    ensures { ◌≡◌ {A = TrusteesResult}
        (record {
          answer = tallied_outcome result;
          closing = tallied_closing result;
          wire_parts = wires.new;
          published = published.new;
        })
        (trustees_result (record {
          shape = shape;
          table = table.now;
          ballots = ballots.now;
          trustees = t;
          lent = record {
            dealing = record { ballot_parts = shares.now; dealer_parts = triples.now };
            wire_parts = wires.old;
            published = published.old;
          };
        })) }
{
    let lent = LentTables {
        shares,
        triples,
        wires,
        published,
    };
    let size = crate::test::test(shape, table, ballots, t, lent)?;
    let k = shape.candidates;
    let factors = 2 * size.conditional;
    trustee_gates::evaluate::evaluate(
        t,
        ballots.len(),
        table,
        size.conditional,
        k,
        shares,
        triples,
        wires,
        published,
    );
    let closing = open_closing(t, factors + k, factors, k, published);
    wires.fill(0);
    Ok(Tallied { size, closing })
}
