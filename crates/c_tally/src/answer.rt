// The answers of measure and count, as numbers in a lent array.
ghost use Rattle.std.specs.Prelude.{◌≡◌, [], ◌∷◌, ◌≤◌, length};
ghost use Rattle.tally.specs.Count.{count_refused, count_bytes};
ghost use Rattle.tally.specs.Measure.{measured_by};
ghost use Rattle.c_answers.specs.Numbers.{three_answer, count_answer, measure_numbers, told_numbers};
ghost use Rattle.c_answers.specs.inner.Puts.{Puts};

use c_answers::array::put;
use c_answers::closing::numbers;
use jury::reason::Refusal;
use jury::shape::ClosingBytes;
use tally::measure::Measures;

// What a call of measure tells: G, C and I.
fn told(own: Measures) -> [usize; 3]
    ensures { result ≡ own.gates ∷ own.conditional ∷ own.inputs ∷ [] }
{
    [own.gates, own.conditional, own.inputs]
}

// Puts reason, place, G, C and I, and returns the status.
pub(crate) fn put_measures(outcome: Result<Measures, Refusal>, answer: &mut [usize]) -> usize
    requires { three_answer ≤ length answer.old }
    ensures { Puts three_answer (measure_numbers (measured_by outcome)) answer.old answer.new result }
{
    put(outcome.map(told), answer)
}

// Puts reason, place and the eight closing bytes, which are 0 on a refusal, and returns the status.
pub(crate) fn put_count(outcome: Result<ClosingBytes, Refusal>, answer: &mut [usize]) -> usize
    requires { count_answer ≤ length answer.old }
    ensures { Puts count_answer (told_numbers (count_refused outcome) (count_bytes outcome)) answer.old
        answer.new result }
{
    put(outcome.map(numbers), answer)
}
