// The entry point [urn-run].
ghost use Rattle.std.specs.Prelude.{◌≡◌};
ghost use Rattle.gates.specs.Gate.{gates_of};
ghost use Rattle.jury.specs.Reason.{first_of};
ghost use Rattle.tally.specs.Answer.{outcome_of, outcome, size_of};
ghost use Rattle.urn_run.specs.Run.{urn_run_reasons, urn_run_result};

use crate::load;
use jury::reason::Refusal;
use jury::shape::Shape;
use tally::answer::Answer;

// All tests of a run on an urn: reasons 1, 13, 2, 3, 4, 7, 8, 9 and 10, in this order.
fn test_run(
    shape: Shape,
    table: &[u32],
    urn: &[u8],
    tape: &[u8],
    wires: &[u8],
    board: &[u8],
) -> Answer
    ensures { outcome_of result ≡ outcome
        (first_of (urn_run_reasons shape table.now urn.now tape.now
        wires.now board.now))
        (size_of (gates_of table.now)) }
{
    if !shape.is_within_graded_limits() {
        return Err(Refusal::Shape);
    }
    let ballots = urn_chains::sound::test(shape.candidates, shape.grades, urn).ok_or(Refusal::Urn)?;
    let size = tally::test::test(shape, table)?;
    if ballots != shape.ballots {
        return Err(Refusal::BallotsLength);
    }
    let inputs = shape.ballot_bytes();
    tally::run::test_buffers(inputs, shape.candidates, size, tape, wires, board)?;
    Ok(size)
}

// Runs a list, whoever wrote it, on the ballots in an urn, in chain order, with one mask for each conditional gate.
// The ballots are copied directly into the wire table, which is emptied after the closing bytes are on the board.
pub fn run_on_urn(
    shape: Shape,
    table: &[u32],
    urn: &[u8],
    tape: &[u8],
    wires: &mut [u8],
    board: &mut [u8],
) -> Answer
    ensures { record { answer = outcome_of result; wires = wires.new; board = board.new }
        ≡ urn_run_result shape table.now urn.now tape.now
        wires.old board.old }
{
    let size = test_run(shape, table, urn, tape, wires, board)?;
    load::load(shape.candidates, shape.grades, urn, wires);
    let inputs = shape.ballot_bytes();
    gates::step::finish(inputs, table, shape.candidates, tape, wires, board);
    wires.fill(0);
    Ok(size)
}
