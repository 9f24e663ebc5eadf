// Running a list on an urn, for C.
ghost use Rattle.std.specs.Prelude.{◌≡◌, [], ◌∷◌};
ghost use Rattle.c_answers.specs.Numbers.{shape_of};
ghost use Rattle.c_urn.specs.Calls.{run_urn_call};

use c_answers::array::{SHORT_ANSWER, SIZE_ANSWER};
use c_answers::size::put_size;
use jury::shape::Shape;

// Runs a list on the ballots in an urn, in chain order. Answers reason, place, G and C. The urn is not changed.
pub fn jugy_run_urn(
    candidates: usize,
    grades: usize,
    ballots: usize,
    table: &[u32],
    urn: &[u8],
    tape: &[u8],
    wires: &mut [u8],
    board: &mut [u8],
    answer: &mut [usize],
) -> usize
    ensures { record {
      returned = result;
      answer = answer.new;
      lent = wires.new ∷ board.new ∷ [];
    } ≡ run_urn_call (shape_of candidates grades ballots) table.now urn.now tape.now
        wires.old board.old answer.old }
{
    if answer.len() < SIZE_ANSWER {
        return SHORT_ANSWER;
    }
    let shape = match Shape::new(candidates, grades, ballots) {
        Ok(shape) => shape,
        Err(reason) => return put_size(Err(reason), answer),
    };
    let outcome = urn_run::run::run_on_urn(shape, table, urn, tape, wires, board);
    put_size(outcome, answer)
}
