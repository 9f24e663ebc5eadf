// The entry point [run].
ghost use Rattle.std.specs.Prelude.{◌≡◌};
ghost use Rattle.jury.specs.Reason.{refused_for, first_of};
ghost use Rattle.tally.specs.Answer.{outcome_of, size_in};
ghost use Rattle.tally.specs.Run.{buffer_reasons, run_outcome, run_result};

use crate::answer::Answer;
use gates::list::ListSize;
use jury::reason::Refusal;
use jury::shape::Shape;

// Tests for reasons 7 to 10, given the list's numbers of inputs and outputs, and its size.
pub fn test_buffers(
    inputs: usize,
    outputs: usize,
    size: ListSize,
    tape: &[u8],
    wires: &[u8],
    board: &[u8],
) -> Result<(), Refusal>
    ensures { refused_for result
        ≡ first_of (buffer_reasons inputs outputs (size_in size) tape.now wires.now board.now) }
{
    if !gates::lengths::has_length(tape, size.conditional, 0) {
        return Err(Refusal::TapeLength);
    }
    if let Some(i) = gates::place::first_above_one(tape) {
        return Err(Refusal::TapeByte(i));
    }
    if !gates::lengths::has_length(wires, inputs, size.gates) {
        return Err(Refusal::WiresLength);
    }
    if !gates::lengths::has_length(board, size.conditional, outputs) {
        return Err(Refusal::BoardLength);
    }
    Ok(())
}

// All tests of a run: reasons 1 to 10, with 11 and 12 in place of 6 for rankings.
fn test_run(
    shape: Shape,
    table: &[u32],
    ballots: &[u8],
    tape: &[u8],
    wires: &[u8],
    board: &[u8],
) -> Answer
    ensures { outcome_of result ≡ run_outcome shape table.now ballots.now tape.now
        wires.now board.now }
{
    let size = crate::test::test(shape, table)?;
    jury::ballots::test(shape, ballots)?;
    test_buffers(
        shape.ballot_bytes(),
        shape.candidates,
        size,
        tape,
        wires,
        board,
    )?;
    Ok(size)
}

// Runs a list, whoever wrote it, on the ballots of a jury, with one mask for each conditional gate. Meanwhile the
// wire table holds ballots and values in the clear; it is emptied after the closing bytes are on the board. What is
// lent stays apart, as C hands it over.
pub fn run(
    shape: Shape,
    table: &[u32],
    ballots: &[u8],
    tape: &[u8],
    wires: &mut [u8],
    board: &mut [u8],
) -> Answer
    ensures { record { answer = outcome_of result; wires = wires.new; board = board.new }
        ≡ run_result shape table.now ballots.now tape.now wires.old
        board.old }
{
    let size = test_run(shape, table, ballots, tape, wires, board)?;
    gates::step::run(ballots, table, shape.candidates, tape, wires, board);
    wires.fill(0);
    Ok(size)
}
