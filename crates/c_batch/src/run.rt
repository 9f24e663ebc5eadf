// Running a list for 64 juries at once, for C.
ghost use Rattle.std.specs.Prelude.{◌≡◌, [], ◌∷◌};
ghost use Rattle.c_answers.specs.Numbers.{shape_of};
ghost use Rattle.c_batch.specs.Calls.{batch_call};

use c_answers::array::{SHORT_ANSWER, SIZE_ANSWER};
use c_answers::size::put_size;
use jury::shape::Shape;

// Runs a list for 64 juries; bit j of each word is jury j's. Answers reason, place, G and C.
pub fn jugy_run_batch(
    candidates: usize,
    grades: usize,
    ballots: usize,
    table: &[u32],
    words: &[u64],
    tape: &[u64],
    wires: &mut [u64],
    board: &mut [u64],
    answer: &mut [usize],
) -> usize
    ensures { record {
      returned = result;
      answer = answer.new;
      lent = wires.new ∷ board.new ∷ [];
    } ≡ batch_call (record {
      shape = shape_of candidates grades ballots;
      table = table.now;
      ballots = words.now;
      tape = tape.now;
      wires = wires.old;
      board = board.old;
    }) answer.old }
{
    if answer.len() < SIZE_ANSWER {
        return SHORT_ANSWER;
    }
    let shape = match Shape::new(candidates, grades, ballots) {
        Ok(shape) => shape,
        Err(reason) => return put_size(Err(reason), answer),
    };
    let outcome = batch::run::run(shape, table, words, tape, wires, board);
    put_size(outcome, answer)
}
