// Measuring a shape, for C.
ghost use Rattle.std.specs.Prelude.{◌≡◌, []};
ghost use Rattle.c_answers.specs.Numbers.{shape_of};
ghost use Rattle.c_tally.specs.Calls.{measure_call};

use crate::answer::put_measures;
use c_answers::array::{SHORT_ANSWER, THREE_ANSWER};
use jury::shape::Shape;

// Measures the own list of a shape. Answers reason, place, G, C and I.
pub fn jugy_measure(candidates: usize, grades: usize, ballots: usize, answer: &mut [usize]) -> usize
    ensures { record { returned = result; answer = answer.new; lent = [] }
        ≡ measure_call (shape_of candidates grades ballots) answer.old }
{
    if answer.len() < THREE_ANSWER {
        return SHORT_ANSWER;
    }
    let shape = match Shape::new(candidates, grades, ballots) {
        Ok(shape) => shape,
        Err(reason) => return put_measures(Err(reason), answer),
    };
    let outcome = tally::measure::measure(shape);
    put_measures(outcome, answer)
}
