// The entry point [trustee-start].
ghost use Rattle.std.specs.Prelude.{◌≡◌};
ghost use Rattle.jury.specs.Reason.{refused_for, first_of};
ghost use Rattle.tally.specs.Answer.{outcome_of, size_in};
ghost use Rattle.trustees.specs.inner.Sizes.{SmallSizes};
ghost use Rattle.trustee_alone.specs.Start.{own_reasons, start_result};

use crate::own;
use crate::own::OwnTables;
use gates::list::ListSize;
use jury::reason::Refusal;
use jury::shape::Shape;
use tally::answer::Answer;
use trustee_gates::dealing;

// Tests for reasons 16 to 18.
fn test_own(
    inputs: usize,
    k: usize,
    size: ListSize,
    t: usize,
    p: usize,
    shares: &[u8],
    own: OwnTables,
) -> Result<(), Refusal>
    requires { SmallSizes inputs k size.gates size.conditional }
    ensures { refused_for result
        ≡ first_of (own_reasons inputs k (size_in size) t p shares.now own.entry.triples.now own.entry.wires.now
        own.entry.published.now) }
{
    if !own::is_trustee(t, p) {
        return Err(Refusal::Trustees);
    }
    if shares.len() != inputs {
        return Err(Refusal::PartTables);
    }
    if !own::tables_fit(inputs, k, size, own) {
        return Err(Refusal::PartTables);
    }
    if !dealing::only_bits(shares) {
        return Err(Refusal::Dealing);
    }
    if !dealing::only_bits(own.triples) {
        return Err(Refusal::Dealing);
    }
    Ok(())
}

// Trustee p of t starts: its wire parts become its ballot parts, then zeros; its published bits become zeros. What is
// lent stays apart, as C hands it over.
pub fn start(
    shape: Shape,
    table: &[u32],
    t: usize,
    p: usize,
    shares: &[u8],
    triples: &[u8],
    wires: &mut [u8],
    published: &mut [u8],
) -> Answer
    ensures { record { answer = outcome_of result; wires = wires.new; published = published.new }
        ≡ start_result shape table.now t p shares.now triples.now wires.old
        published.old }
{
    let size = tally::test::test(shape, table)?;
    let inputs = shape.ballot_bytes();
    let own = OwnTables {
        triples,
        wires,
        published,
    };
    test_own(inputs, shape.candidates, size, t, p, shares, own)?;
    wires.fill(0);
    basics::slice::copy(shares, &mut wires[..shares.len()]);
    published.fill(0);
    Ok(size)
}
