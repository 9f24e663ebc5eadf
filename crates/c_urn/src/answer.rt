// The answer of a call on an urn, as numbers in a lent array.
ghost use Rattle.std.specs.Prelude.{◌≤◌, length};
ghost use Rattle.urn.specs.Facts.{counted_by};
ghost use Rattle.c_answers.specs.Numbers.{one_answer, one_numbers};
ghost use Rattle.c_answers.specs.inner.Puts.{Puts};

use c_answers::array::{one, put};
use urn::answer::Answer;

// Puts reason, place and the number of ballots, and returns the status.
pub(crate) fn put_ballots(outcome: Answer, answer: &mut [usize]) -> usize
    requires { one_answer ≤ length answer.old }
    ensures { Puts one_answer (one_numbers (counted_by outcome)) answer.old answer.new result }
{
    put(outcome.map(one), answer)
}
