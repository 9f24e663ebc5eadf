// The plain count, for C.
ghost use Rattle.std.specs.Prelude.{◌≡◌, []};
ghost use Rattle.c_answers.specs.Numbers.{shape_of};
ghost use Rattle.c_tally.specs.Calls.{count_call};

use crate::answer::put_count;
use c_answers::array::{COUNT_ANSWER, SHORT_ANSWER};
use jury::shape::Shape;

// Counts without a circuit. Answers reason, place and the eight closing bytes.
pub fn jugy_count(
    candidates: usize,
    grades: usize,
    ballots: usize,
    bytes: &[u8],
    answer: &mut [usize],
) -> usize
    ensures { record { returned = result; answer = answer.new; lent = [] }
        ≡ count_call (shape_of candidates grades ballots) bytes.now answer.old }
{
    if answer.len() < COUNT_ANSWER {
        return SHORT_ANSWER;
    }
    let shape = match Shape::new(candidates, grades, ballots) {
        Ok(shape) => shape,
        Err(reason) => return put_count(Err(reason), answer),
    };
    let outcome = tally::count::count(shape, bytes);
    put_count(outcome, answer)
}
