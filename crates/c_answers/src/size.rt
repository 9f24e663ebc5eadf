// The answer of write, test or run, as numbers in a lent array.
ghost use Rattle.std.specs.Prelude.{◌≡◌, [], ◌∷◌, ◌≤◌, length};
ghost use Rattle.tally.specs.Answer.{outcome_of};
ghost use Rattle.c_answers.specs.Numbers.{size_answer, size_numbers};
ghost use Rattle.c_answers.specs.inner.Puts.{Puts};

use crate::array::put;
use gates::list::ListSize;
use tally::answer::Answer;

// What such a call tells: G and C.
fn told(size: ListSize) -> [usize; 2]
    ensures { result ≡ size.gates ∷ size.conditional ∷ [] }
{
    [size.gates, size.conditional]
}

// Puts reason, place, G and C, and returns the status. A call for C answers a number; so a refusal is put here and not
// handed on by `?`.
pub fn put_size(outcome: Answer, answer: &mut [usize]) -> usize
    requires { size_answer ≤ length answer.old }
    ensures { Puts size_answer (size_numbers (outcome_of outcome)) answer.old answer.new result }
{
    put(outcome.map(told), answer)
}
