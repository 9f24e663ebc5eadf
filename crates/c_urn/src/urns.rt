// Empty urns, admission, withdrawal and their previews, for C.
ghost use Rattle.std.specs.Prelude.{◌≡◌, [], ◌∷◌};
ghost use Rattle.c_urn.specs.Calls.{empty_call, admit_call, withdraw_call, preview_admit_call, preview_withdraw_call};

use crate::answer::put_ballots;
use c_answers::array::{ONE_ANSWER, SHORT_ANSWER};

// Turns a table into an empty urn. Answers reason, place and the number of ballots, 0.
pub fn jugy_empty_urn(
    candidates: usize,
    grades: usize,
    urn: &mut [u8],
    answer: &mut [usize],
) -> usize
    ensures { record { returned = result; answer = answer.new; lent = urn.new ∷ [] }
        ≡ empty_call candidates grades urn.old answer.old }
{
    if answer.len() < ONE_ANSWER {
        return SHORT_ANSWER;
    }
    let outcome = urn::empty::empty(candidates, grades, urn);
    put_ballots(outcome, answer)
}

// Admits a juror's ballot. Answers reason, place and the new number of ballots.
pub fn jugy_admit(
    candidates: usize,
    grades: usize,
    urn: &mut [u8],
    juror: usize,
    ballot: &[u8],
    answer: &mut [usize],
) -> usize
    ensures { record { returned = result; answer = answer.new; lent = urn.new ∷ [] }
        ≡ admit_call candidates grades urn.old juror ballot.now answer.old }
{
    if answer.len() < ONE_ANSWER {
        return SHORT_ANSWER;
    }
    let outcome = urn::admit::admit(candidates, grades, urn, juror, ballot);
    put_ballots(outcome, answer)
}

// Withdraws a juror's ballot. Answers reason, place and the new number of ballots.
pub fn jugy_withdraw(
    candidates: usize,
    grades: usize,
    urn: &mut [u8],
    juror: usize,
    answer: &mut [usize],
) -> usize
    ensures { record { returned = result; answer = answer.new; lent = urn.new ∷ [] }
        ≡ withdraw_call candidates grades urn.old juror answer.old }
{
    if answer.len() < ONE_ANSWER {
        return SHORT_ANSWER;
    }
    let outcome = urn::withdraw::withdraw(candidates, grades, urn, juror);
    put_ballots(outcome, answer)
}

// Answers what an admission would. The urn is not changed.
pub fn jugy_preview_admit(
    candidates: usize,
    grades: usize,
    urn: &[u8],
    juror: usize,
    ballot: &[u8],
    answer: &mut [usize],
) -> usize
    ensures { record { returned = result; answer = answer.new; lent = [] }
        ≡ preview_admit_call candidates grades urn.now juror ballot.now answer.old }
{
    if answer.len() < ONE_ANSWER {
        return SHORT_ANSWER;
    }
    let outcome = urn::admit::preview(candidates, grades, urn, juror, ballot);
    put_ballots(outcome, answer)
}

// Answers what a withdrawal would. The urn is not changed.
pub fn jugy_preview_withdraw(
    candidates: usize,
    grades: usize,
    urn: &[u8],
    juror: usize,
    answer: &mut [usize],
) -> usize
    ensures { record { returned = result; answer = answer.new; lent = [] }
        ≡ preview_withdraw_call candidates grades urn.now juror answer.old }
{
    if answer.len() < ONE_ANSWER {
        return SHORT_ANSWER;
    }
    let outcome = urn::withdraw::preview(candidates, grades, urn, juror);
    put_ballots(outcome, answer)
}
