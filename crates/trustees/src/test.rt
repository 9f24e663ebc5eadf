// The tests of the trustees' call: reasons 1 to 6, with 11 and 12 in place of 6 for rankings, then 16 to 18.
ghost use Rattle.std.specs.Prelude.{◌≡◌, ◌&&◌, leb, length};
ghost use Rattle.gates.specs.Gate.{gates_of};
ghost use Rattle.jury.specs.Reason.{refused_for, first_of};
ghost use Rattle.tally.specs.Answer.{outcome_of, outcome, size_of, size_in};
ghost use Rattle.trustee_gates.specs.Dealing.{dealt_well};
ghost use Rattle.trustees.specs.Call.{tables_in};
ghost use Rattle.trustees.specs.Reasons.{tables_fit, part_reasons, trustees_reasons};
ghost use Rattle.trustees.specs.inner.Sizes.{SmallSizes, SmallCall, DealingFits};

use gates::list::ListSize;
use jury::reason::Refusal;
use jury::shape::Shape;
use tally::answer::Answer;
use trustee_gates::dealing;

pub const LEAST_TRUSTEES: usize = 2;

pub const MOST_TRUSTEES: usize = 5;

// The four tables that go trustee after trustee, as the tests read them.
#[derive(Clone, Copy)]
pub(crate) struct LentTables<'a> {
    pub shares: &'a [u8],
    pub triples: &'a [u8],
    pub wires: &'a [u8],
    pub published: &'a [u8],
}

// Whether there may be this many trustees.
pub fn are_trustees(t: usize) -> bool
    ensures { result ≡ (leb 2 t && leb t 5) }
{
    LEAST_TRUSTEES <= t && t <= MOST_TRUSTEES
}

// Whether the four tables have the lengths that list and shape need.
#[tactic(auto, unfolding(crate::specs::Reasons::tables_fit))]
fn tables_fit(inputs: usize, outputs: usize, size: ListSize, t: usize, lent: LentTables) -> bool
    requires { SmallCall inputs outputs size.gates size.conditional t }
    ensures { result ≡ tables_fit inputs outputs (size_in size) t (tables_in lent.entry) }
{
    lent.shares.len() == t * inputs
        && lent.triples.len() == t * (3 * size.conditional)
        && lent.wires.len() == t * (inputs + size.gates)
        && lent.published.len() == t * (2 * size.conditional + outputs)
}

// Whether the parts are bits and add up.
#[tactic(auto, unfolding(trustee_gates::specs::Dealing::dealt_well))]
fn is_dealt_well(t: usize, conditional: usize, ballots: &[u8], lent: LentTables) -> bool
    requires { DealingFits t conditional ballots.now (tables_in lent).dealing }
    ensures { result ≡ dealt_well t conditional ballots.now (tables_in lent.entry).dealing }
{
    dealing::only_bits(lent.shares)
        && dealing::only_bits(lent.triples)
        && dealing::adds_up(t, ballots, lent.shares)
        && dealing::products_add_up(t, conditional, lent.triples)
}

// Tests for reasons 16 to 18.
fn test_parts(
    outputs: usize,
    size: ListSize,
    ballots: &[u8],
    t: usize,
    lent: LentTables,
) -> Result<(), Refusal>
    requires { SmallSizes (length ballots.now) outputs size.gates size.conditional }
    ensures { refused_for result ≡ first_of (part_reasons outputs (size_in size) ballots.now t (tables_in lent.entry)) }
{
    if !are_trustees(t) {
        return Err(Refusal::Trustees);
    }
    if !tables_fit(ballots.len(), outputs, size, t, lent) {
        return Err(Refusal::PartTables);
    }
    if !is_dealt_well(t, size.conditional, ballots, lent) {
        return Err(Refusal::Dealing);
    }
    Ok(())
}

// All tests of the call, in their order.
pub(crate) fn test(
    shape: Shape,
    table: &[u32],
    ballots: &[u8],
    t: usize,
    lent: LentTables,
) -> Answer
    ensures { outcome_of result
        ≡ outcome (first_of (trustees_reasons (record {
          shape = shape;
          table = table.now;
          ballots = ballots.now;
          trustees = t;
          lent = tables_in lent.entry;
        })))
        (size_of (gates_of table.now)) }
{
    let size = tally::test::test(shape, table)?;
    jury::ballots::test(shape, ballots)?;
    test_parts(shape.candidates, size, ballots, t, lent)?;
    Ok(size)
}
