// The lent array in which a call leaves its answer.
ghost use Rattle.std.specs.Prelude.{◌≡◌, [], ◌∷◌, ◌+◌, ◌≤◌, length};
ghost use Rattle.c_answers.specs.Numbers.{result_numbers};
ghost use Rattle.c_answers.specs.inner.Puts.{Puts};

use jury::reason::Numbered;
use jury::shape::Shape;

// The status of a call whose answer array is too short. No reason has this number, and such a call changes nothing.
pub const SHORT_ANSWER: usize = 255;

// How long an answer is. Reason and place come first; after them one number, or G and C, or G, C and a third, or
// `MOST_CANDIDATES` closing bytes, or G, C and `MOST_CANDIDATES` closing bytes.
pub const ONE_ANSWER: usize = 3;

pub const SIZE_ANSWER: usize = 4;

pub const THREE_ANSWER: usize = 5;

pub const COUNT_ANSWER: usize = 2 + Shape::MOST_CANDIDATES;

pub const TALLY_ANSWER: usize = SIZE_ANSWER + Shape::MOST_CANDIDATES;

// Writes reason, place and the numbers told to the start of the array. The rest of the array stays. The reason is
// returned, because it is the status of the call.
pub fn put_answer(reason: usize, place: usize, told: &[usize], answer: &mut [usize]) -> usize
    requires { 2 + length told.now ≤ length answer.old }
    ensures { Puts (2 + length told.now) (reason ∷ place ∷ told.now) answer.old
        answer.new result }
{
    answer[0] = reason;
    answer[1] = place;
    basics::slice::copy(told, &mut answer[2..2 + told.len()]);
    reason
}

// What a call tells that tells one number.
pub fn one(n: usize) -> [usize; 1]
    ensures { result ≡ n ∷ [] }
{
    [n]
}

// Puts reason and place, which are 0 for an accepted call, and the numbers that the call tells, which are 0 on a
// refusal. Returns the status.
#[tactic(auto, unfolding(crate::specs::Numbers::result_numbers))]
pub fn put<E: Numbered, const N: usize>(
    outcome: Result<[usize; N], E>,
    answer: &mut [usize],
) -> usize
    requires { 2 + N ≤ length answer.old }
    ensures { Puts (2 + N) (result_numbers E.told N outcome) answer.old answer.new result }
{
    match outcome {
        Ok(told) => put_answer(0, 0, &told, answer),
        Err(reason) => put_answer(reason.number(), reason.place(), &[0; N], answer),
    }
}
