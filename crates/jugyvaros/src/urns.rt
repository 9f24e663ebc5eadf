// Urns and the run on one, for C.
ghost use Rattle.std.specs.Prelude.{◌≡◌, [], ◌∷◌};
ghost use Rattle.c_urn.specs.Calls.{empty_call, admit_call, withdraw_call, preview_admit_call, preview_withdraw_call, run_urn_call};
ghost use Rattle.c_answers.specs.Numbers.{shape_of};

// Turns a table into an empty urn. Answers reason, place and the number of ballots, 0.
#[unsafe(no_mangle)]
pub extern "C" fn jugy_empty_urn(
    candidates: usize,
    grades: usize,
    urn: &mut [u8],
    answer: &mut [usize],
) -> usize
    ensures { record { returned = result; answer = answer.new; lent = urn.new ∷ [] }
        ≡ empty_call candidates grades urn.old answer.old }
{
    c_urn::urns::jugy_empty_urn(candidates, grades, urn, answer)
}

// Admits a juror's ballot. Answers reason, place and the new number of ballots.
#[unsafe(no_mangle)]
pub extern "C" fn jugy_admit(
    candidates: usize,
    grades: usize,
    urn: &mut [u8],
    juror: usize,
    ballot: &[u8],
    answer: &mut [usize],
) -> usize
    ensures { record { returned = result; answer = answer.new; lent = urn.new ∷ [] }
        ≡ admit_call candidates grades urn.old juror ballot.now answer.old }
{
    c_urn::urns::jugy_admit(candidates, grades, urn, juror, ballot, answer)
}

// Withdraws a juror's ballot. Answers reason, place and the new number of ballots.
#[unsafe(no_mangle)]
pub extern "C" fn jugy_withdraw(
    candidates: usize,
    grades: usize,
    urn: &mut [u8],
    juror: usize,
    answer: &mut [usize],
) -> usize
    ensures { record { returned = result; answer = answer.new; lent = urn.new ∷ [] }
        ≡ withdraw_call candidates grades urn.old juror answer.old }
{
    c_urn::urns::jugy_withdraw(candidates, grades, urn, juror, answer)
}

// Answers what an admission would. The urn is not changed.
#[unsafe(no_mangle)]
pub extern "C" fn jugy_preview_admit(
    candidates: usize,
    grades: usize,
    urn: &[u8],
    juror: usize,
    ballot: &[u8],
    answer: &mut [usize],
) -> usize
    ensures { record { returned = result; answer = answer.new; lent = [] }
        ≡ preview_admit_call candidates grades urn.now juror ballot.now answer.old }
{
    c_urn::urns::jugy_preview_admit(candidates, grades, urn, juror, ballot, answer)
}

// Answers what a withdrawal would. The urn is not changed.
#[unsafe(no_mangle)]
pub extern "C" fn jugy_preview_withdraw(
    candidates: usize,
    grades: usize,
    urn: &[u8],
    juror: usize,
    answer: &mut [usize],
) -> usize
    ensures { record { returned = result; answer = answer.new; lent = [] }
        ≡ preview_withdraw_call candidates grades urn.now juror answer.old }
{
    c_urn::urns::jugy_preview_withdraw(candidates, grades, urn, juror, answer)
}

// Runs a list on the ballots in an urn, in chain order. Answers reason, place, G and C. The urn is not changed.
#[unsafe(no_mangle)]
pub extern "C" fn jugy_run_urn(
    candidates: usize,
    grades: usize,
    ballots: usize,
    table: &[u32],
    urn: &[u8],
    tape: &[u8],
    wires: &mut [u8],
    board: &mut [u8],
    answer: &mut [usize],
) -> usize
    ensures { record {
      returned = result;
      answer = answer.new;
      lent = wires.new ∷ board.new ∷ [];
    } ≡ run_urn_call (shape_of candidates grades ballots) table.now urn.now tape.now
        wires.old board.old answer.old }
{
    c_urn::run::jugy_run_urn(
        candidates, grades, ballots, table, urn, tape, wires, board, answer,
    )
}
