// The levels of a list, for C.
ghost use Rattle.std.specs.Prelude.{◌≡◌, [], ◌∷◌, ◌≤◌, length};
ghost use Rattle.levels.specs.Answer.{depths_outcome};
ghost use Rattle.c_answers.specs.Numbers.{three_answer, shape_of};
ghost use Rattle.c_answers.specs.inner.Puts.{Puts};
ghost use Rattle.c_levels.specs.Numbers.{depth_numbers};
ghost use Rattle.c_levels.specs.Calls.{levels_call};

use c_answers::array::{SHORT_ANSWER, THREE_ANSWER, put};
use jury::shape::Shape;
use levels::answer::{Answer, Depths, LevelRefusal};

// What such a call tells: G, C and R.
fn told(depths: Depths) -> [usize; 3]
    ensures { result ≡ depths.gates ∷ depths.conditional ∷ depths.rounds ∷ [] }
{
    [depths.gates, depths.conditional, depths.rounds]
}

// Puts reason, place, G, C and R, and returns the status.
pub fn put_depths(outcome: Answer, answer: &mut [usize]) -> usize
    requires { three_answer ≤ length answer.old }
    ensures { Puts three_answer (depth_numbers (depths_outcome outcome)) answer.old answer.new result }
{
    put(outcome.map(told), answer)
}

// Writes the level of each gate of any list. Answers reason, place, G, C and R.
pub fn jugy_levels(
    candidates: usize,
    grades: usize,
    ballots: usize,
    table: &[u32],
    levels: &mut [u32],
    answer: &mut [usize],
) -> usize
    ensures { record { returned = result; answer = answer.new; lent = levels.new ∷ [] }
        ≡ levels_call (shape_of candidates grades ballots) table.now levels.old
        answer.old }
{
    if answer.len() < THREE_ANSWER {
        return SHORT_ANSWER;
    }
    let shape = match Shape::new(candidates, grades, ballots) {
        Ok(shape) => shape,
        Err(reason) => return put_depths(Err(LevelRefusal::OfCore(reason)), answer),
    };
    let outcome = levels::write::write(shape, table, levels);
    put_depths(outcome, answer)
}
