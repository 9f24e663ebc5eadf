// The tally by trustees, for C.
ghost use Rattle.std.specs.Prelude.{◌≡◌, [], ◌∷◌};
ghost use Rattle.c_answers.specs.Numbers.{shape_of};
ghost use Rattle.c_trustees.specs.Calls.{trustees_call};

// Tallies ballots that trustees hold in parts. Answers reason, place, G, C and the opened closing bits as eight
// bytes.
#[unsafe(no_mangle)]
pub extern "C" fn jugy_trustees(
    candidates: usize,
    grades: usize,
    ballots: usize,
    table: &[u32],
    bytes: &[u8],
    trustees: usize,
    shares: &[u8],
    triples: &[u8],
    wires: &mut [u8],
    published: &mut [u8],
    answer: &mut [usize],
) -> usize
    ensures { record {
      returned = result;
      answer = answer.new;
      lent = wires.new ∷ published.new ∷ [];
    } ≡ trustees_call (record {
      shape = shape_of candidates grades ballots;
      table = table.now;
      ballots = bytes.now;
      trustees = trustees;
      lent = record {
        dealing = record { ballot_parts = shares.now; dealer_parts = triples.now };
        wire_parts = wires.old;
        published = published.old;
      };
    }) answer.old }
{
    c_trustees::by_trustees::jugy_trustees(
        candidates, grades, ballots, table, bytes, trustees, shares, triples, wires, published,
        answer,
    )
}
