// The entry point [lanes]: a run for 64 juries.
ghost use Rattle.std.specs.Prelude.{◌≡◌};
ghost use Rattle.gates.specs.Gate.{gates_of};
ghost use Rattle.jury.specs.Reason.{refused_for, first_of};
ghost use Rattle.tally.specs.Answer.{outcome_of, outcome, size_of, size_in};
ghost use Rattle.tally.specs.Run.{RunResult};
ghost use Rattle.batch.specs.Run.{word_buffer_reasons, batch_reasons, batch_result};

use gates::lengths::has_length;
use gates::list::ListSize;
use jury::reason::Refusal;
use jury::shape::Shape;
use tally::answer::Answer;

// Tests for reasons 7, 9 and 10, given the list's numbers of inputs and outputs, and its size. This and the functions
// below stay apart from those of a single run: reason 8 is for bytes only, and a lane has an equation of its own.
fn test_buffers(
    inputs: usize,
    outputs: usize,
    size: ListSize,
    tape: &[u64],
    wires: &[u64],
    board: &[u64],
) -> Result<(), Refusal>
    ensures { refused_for result
        ≡ first_of (word_buffer_reasons inputs outputs (size_in size) tape.now wires.now board.now) }
{
    if !has_length(tape, size.conditional, 0) {
        return Err(Refusal::TapeLength);
    }
    if !has_length(wires, inputs, size.gates) {
        return Err(Refusal::WiresLength);
    }
    if !has_length(board, size.conditional, outputs) {
        return Err(Refusal::BoardLength);
    }
    Ok(())
}

// All tests of the call: reasons 1, 2, 3, 4, then 6 or 11 and 12, then 7, 9 and 10.
fn test_run(
    shape: Shape,
    table: &[u32],
    ballots: &[u64],
    tape: &[u64],
    wires: &[u64],
    board: &[u64],
) -> Answer
    ensures { outcome_of result
        ≡ outcome (first_of (batch_reasons (record {
          shape = shape;
          table = table.now;
          ballots = ballots.now;
          tape = tape.now;
          wires = wires.now;
          board = board.now;
        })))
        (size_of (gates_of table.now)) }
{
    let size = tally::test::test(shape, table)?;
    crate::ballots::test(shape, ballots)?;
    test_buffers(
        shape.ballot_bytes(),
        shape.candidates,
        size,
        tape,
        wires,
        board,
    )?;
    Ok(size)
}

// Runs a list, whoever wrote it, on the ballots of 64 juries of one shape; bit j of each number is jury j's.
// Meanwhile the wire table holds ballots and values in the clear; it is emptied after the closing words are on the
// board.
pub fn run(
    shape: Shape,
    table: &[u32],
    ballots: &[u64],
    tape: &[u64],
    wires: &mut [u64],
    board: &mut [u64],
) -> Answer
    ensures { ◌≡◌ {A = RunResult}
        (record { answer = outcome_of result; wires = wires.new; board = board.new })
        (batch_result (record {
          shape = shape;
          table = table.now;
          ballots = ballots.now;
          tape = tape.now;
          wires = wires.old;
          board = board.old;
        })) }
{
    let size = test_run(shape, table, ballots, tape, wires, board)?;
    batch_lanes::step::run(ballots, table, shape.candidates, tape, wires, board);
    wires.fill(0);
    Ok(size)
}
