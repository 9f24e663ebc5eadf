// The entry point that admits a ballot, and its preview.
ghost use Rattle.std.specs.Prelude.{◌≡◌, ◌*◌, Some};
ghost use Rattle.urn_chains.specs.Slots.{bytes_of};
ghost use Rattle.urn_chains.specs.Sound.{graded_shape, good_juror, urn_slots};
ghost use Rattle.urn.specs.Facts.{counted_by};
ghost use Rattle.urn.specs.Admit.{admit_outcome_by, admit_outcome, with_ballot, admission};
ghost use Rattle.urn.specs.inner.Ready.{DecideReady, Admissible};

use crate::answer::Answer;
use crate::facts::Facts;
use crate::{facts, put};
use jury::reason::Refusal;
use jury::shape::Shape;

// The largest number of a juror: it is kept in a byte.
pub const MOST_JURORS: usize = 255;

// Whether k and d are within the limits of a graded jury.
pub fn is_graded(k: usize, d: usize) -> bool
    ensures { result ≡ graded_shape k d }
{
    let shape = Shape {
        candidates: k,
        grades: d,
        ballots: 1,
    };
    shape.is_within_graded_limits()
}

// Whether this can be the number of a juror.
pub(crate) fn is_juror(juror: usize) -> bool
    ensures { result ≡ good_juror juror }
{
    1 <= juror && juror <= MOST_JURORS
}

// The answer to an admission to a sound urn. It knows nothing about the urn except the facts. The numbers k and d stay
// apart, as C hands them over: they may be outside the limits of a shape.
fn decide(k: usize, d: usize, facts: Facts, juror: usize, ballot: &[u8]) -> Answer
    requires { DecideReady k d facts }
    ensures { counted_by result ≡ admit_outcome_by k d (Some facts) juror ballot.now }
{
    if !is_juror(juror) {
        return Err(Refusal::Juror);
    }
    if facts.present {
        return Err(Refusal::Juror);
    }
    let shape = Shape {
        candidates: k,
        grades: d,
        ballots: 1,
    };
    jury::ballots::test(shape, ballot)?;
    if facts.full {
        return Err(Refusal::FullUrn);
    }
    Ok(facts.ballots + 1)
}

// What an admission would answer. The urn is lent for reading only.
pub fn preview(k: usize, d: usize, urn: &[u8], juror: usize, ballot: &[u8]) -> Answer
    ensures { counted_by result ≡ admit_outcome k d urn.now juror ballot.now }
{
    if !is_graded(k, d) {
        return Err(Refusal::Shape);
    }
    let looked = facts::check(k, d, urn, juror).ok_or(Refusal::Urn)?;
    decide(k, d, looked.facts, juror, ballot)
}

// Puts a ballot into the first free slot, and makes that slot the first of the ballot chain. A juror's number is at
// most 255, so the cast needs no `try_from`.
fn put_ballot(k: usize, d: usize, urn: &mut [u8], juror: usize, ballot: &[u8])
    requires { Admissible k d urn.old juror ballot.now }
    ensures { urn.new
        ≡ bytes_of (with_ballot (k * d) (urn_slots k d urn.old) juror ballot.now) }
{
    let size = 2 + k * d;
    let first = urn[0];
    let slot = urn[1];
    let at = usize::from(slot) * size;
    let next = urn[at];
    put::put_slot(urn, at, first, juror as u8, ballot);
    urn[0] = slot;
    urn[1] = next;
}

// Admits a juror's ballot.
pub fn admit(k: usize, d: usize, urn: &mut [u8], juror: usize, ballot: &[u8]) -> Answer
    ensures { record { answer = counted_by result; urn = urn.new }
        ≡ admission k d urn.old juror ballot.now }
{
    let ballots = preview(k, d, urn, juror, ballot)?;
    put_ballot(k, d, urn, juror, ballot);
    Ok(ballots)
}
