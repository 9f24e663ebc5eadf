// Testing a list, for C.
ghost use Rattle.std.specs.Prelude.{◌≡◌, []};
ghost use Rattle.c_answers.specs.Numbers.{shape_of};
ghost use Rattle.c_tally.specs.Calls.{test_call};

use c_answers::array::{SHORT_ANSWER, SIZE_ANSWER};
use c_answers::size::put_size;
use jury::shape::Shape;

// Tests any list for a shape. Answers reason, place, G and C.
pub fn jugy_test(
    candidates: usize,
    grades: usize,
    ballots: usize,
    table: &[u32],
    answer: &mut [usize],
) -> usize
    ensures { record { returned = result; answer = answer.new; lent = [] }
        ≡ test_call (shape_of candidates grades ballots) table.now answer.old }
{
    if answer.len() < SIZE_ANSWER {
        return SHORT_ANSWER;
    }
    let shape = match Shape::new(candidates, grades, ballots) {
        Ok(shape) => shape,
        Err(reason) => return put_size(Err(reason), answer),
    };
    let outcome = tally::test::test(shape, table);
    put_size(outcome, answer)
}
