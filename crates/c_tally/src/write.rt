// Writing the own list of a shape, for C.
ghost use Rattle.std.specs.Prelude.{[], ◌∷◌};
ghost use Rattle.c_answers.specs.Numbers.{shape_of};
ghost use Rattle.c_tally.specs.Calls.{WriteLeaves};

use c_answers::array::{SHORT_ANSWER, SIZE_ANSWER};
use c_answers::size::put_size;
use jury::shape::Shape;

// Writes the own list of a shape. Answers reason, place, G and C.
pub fn jugy_write(
    candidates: usize,
    grades: usize,
    ballots: usize,
    table: &mut [u32],
    answer: &mut [usize],
) -> usize
    ensures { WriteLeaves (shape_of candidates grades ballots) table.old answer.old
        (record { returned = result; answer = answer.new; lent = table.new ∷ [] }) }
{
    if answer.len() < SIZE_ANSWER {
        return SHORT_ANSWER;
    }
    let shape = match Shape::new(candidates, grades, ballots) {
        Ok(shape) => shape,
        Err(reason) => return put_size(Err(reason), answer),
    };
    let outcome = tally::write::write(shape, table);
    put_size(outcome, answer)
}
