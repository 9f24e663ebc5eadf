// The entry point [trustee-round].
ghost use Rattle.std.specs.Prelude.{◌≡◌};
ghost use Rattle.jury.specs.Reason.{first_of};
ghost use Rattle.gates.specs.Gate.{gates_of};
ghost use Rattle.tally.specs.Answer.{outcome};
ghost use Rattle.levels.specs.Answer.{depths_of, depths_outcome};
ghost use Rattle.trustee_alone.specs.inner.Ready.{TablesReady};
ghost use Rattle.trustee_alone.specs.Rounds.{table_reasons, round_reasons, round_result};
ghost use Rattle.jury.specs.Shape.{ballot_bytes};

use crate::own;
use crate::own::OwnTables;
use gate_levels::level;
use gates::list::ListSize;
use jury::reason::Refusal;
use jury::shape::Shape;
use levels::answer::{Answer, Depths, LevelRefusal};
use trustee_gates::dealing;
use trustee_rounds::round::Seat;

// Tests for reasons 16 to 18 and 200 to 202, for a list that has passed its test.
fn test_tables(
    inputs: usize,
    k: usize,
    size: ListSize,
    t: usize,
    p: usize,
    round: usize,
    table: &[u32],
    levels: &[u32],
    heard: &[u8],
    own: OwnTables,
) -> Answer
    requires { TablesReady inputs k size.gates size.conditional table.now }
    ensures { depths_outcome result
        ≡ outcome
        (first_of
        (table_reasons inputs k (gates_of table.now) t p round levels.now own.entry.triples.now
        heard.now own.entry.wires.now own.entry.published.now))
        (depths_of inputs (gates_of table.now)) }
{
    let ListSize { gates, conditional } = size;
    if !own::is_trustee(t, p) {
        return Err(LevelRefusal::OfCore(Refusal::Trustees));
    }
    if !own::tables_fit(inputs, k, size, own) {
        return Err(LevelRefusal::OfCore(Refusal::PartTables));
    }
    if !dealing::only_bits(own.triples) {
        return Err(LevelRefusal::OfCore(Refusal::Dealing));
    }
    if levels.len() != gates {
        return Err(LevelRefusal::Levels);
    }
    let Some(rounds) = level::compare(inputs, table, levels) else {
        return Err(LevelRefusal::Levels);
    };
    if rounds < round {
        return Err(LevelRefusal::Round);
    }
    if heard.len() != 2 * conditional {
        return Err(LevelRefusal::Heard);
    }
    if !dealing::only_bits(heard) {
        return Err(LevelRefusal::Heard);
    }
    Ok(Depths {
        gates,
        conditional,
        rounds,
    })
}

// All tests of a round, in their order.
fn test_round(
    shape: Shape,
    table: &[u32],
    t: usize,
    p: usize,
    round: usize,
    levels: &[u32],
    heard: &[u8],
    own: OwnTables,
) -> Answer
    ensures { depths_outcome result
        ≡ outcome
        (first_of
        (round_reasons shape table.now t p round levels.now own.entry.triples.now
        heard.now own.entry.wires.now own.entry.published.now))
        (depths_of (ballot_bytes shape) (gates_of table.now)) }
{
    let size = tally::test::test(shape, table)?;
    let inputs = shape.ballot_bytes();
    test_tables(
        inputs,
        shape.candidates,
        size,
        t,
        p,
        round,
        table,
        levels,
        heard,
        own,
    )
}

// Round r of trustee p of t: it enters the parts of the gates of level r, and publishes the factors of the
// conditional gates of level r + 1. The last round also publishes the closing bits. What is lent stays
// apart, as C hands it over.
pub fn round(
    shape: Shape,
    table: &[u32],
    t: usize,
    p: usize,
    round: usize,
    levels: &[u32],
    triples: &[u8],
    heard: &[u8],
    wires: &mut [u8],
    published: &mut [u8],
) -> Answer
    ensures { record { answer = depths_outcome result; wires = wires.new; published = published.new }
        ≡ round_result shape table.now t p round levels.now triples.now
        heard.now wires.old published.old }
{
    let own = OwnTables {
        triples,
        wires,
        published,
    };
    let depths = test_round(shape, table, t, p, round, levels, heard, own)?;
    let seat = Seat {
        trustee: p,
        round,
        inputs: shape.ballot_bytes(),
    };
    trustee_rounds::round::round(
        seat,
        depths.rounds,
        depths.conditional,
        shape.candidates,
        table,
        levels,
        triples,
        heard,
        wires,
        published,
    );
    Ok(depths)
}
