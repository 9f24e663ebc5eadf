// The entry point that withdraws a ballot, and its preview.
ghost use Rattle.std.specs.Prelude.{◌≡◌, ◌*◌, T, Some};
ghost use Rattle.urn_chains.specs.Slots.{bytes_of, slot_at};
ghost use Rattle.urn_chains.specs.Sound.{graded_shape, urn_slots};
ghost use Rattle.urn.specs.Facts.{counted_by};
ghost use Rattle.urn.specs.Withdraw.{withdraw_outcome_by, withdraw_outcome, without_ballot, withdrawal};
ghost use Rattle.urn.specs.inner.Ready.{Present};

use crate::admit::{is_graded, is_juror};
use crate::answer::Answer;
use crate::facts::Facts;
use crate::{facts, put};
use jury::reason::Refusal;
use jury::shape::Shape;

// The answer to a withdrawal from a sound urn. It knows nothing about the urn except the facts.
fn decide(k: usize, d: usize, facts: Facts, juror: usize) -> Answer
    requires { T (graded_shape k d) }
    ensures { counted_by result ≡ withdraw_outcome_by k d (Some facts) juror }
{
    if !is_juror(juror) {
        return Err(Refusal::Juror);
    }
    if !facts.present {
        return Err(Refusal::Juror);
    }
    Ok(facts.ballots.saturating_sub(1))
}

// What a withdrawal would answer. The urn is lent for reading only.
pub fn preview(k: usize, d: usize, urn: &[u8], juror: usize) -> Answer
    ensures { counted_by result ≡ withdraw_outcome k d urn.now juror }
{
    if !is_graded(k, d) {
        return Err(Refusal::Shape);
    }
    let looked = facts::check(k, d, urn, juror).ok_or(Refusal::Urn)?;
    decide(k, d, looked.facts, juror)
}

// Takes out the ballot in this slot, which comes after slot `before` in the ballot chain, and makes the slot the
// first of the free chain. A slot number is below 256, so the cast needs no `try_from`.
fn take_ballot(k: usize, d: usize, urn: &mut [u8], before: usize, slot: usize)
    requires { Present k d urn.old before slot }
    ensures { urn.new ≡ bytes_of (without_ballot (k * d) (urn_slots k d urn.old)
        (slot_at (urn_slots k d urn.old) slot).juror) }
{
    let bytes = k * d;
    let size = 2 + bytes;
    let zeros = [0u8; Shape::MOST_CANDIDATES * Shape::MOST_GRADES];
    let from = before * size;
    let at = slot * size;
    let free = urn[1];
    urn[from] = urn[at];
    put::put_slot(urn, at, free, 0, &zeros[0..bytes]);
    urn[1] = slot as u8;
}

// Withdraws a juror's ballot.
pub fn withdraw(k: usize, d: usize, urn: &mut [u8], juror: usize) -> Answer
    ensures { record { answer = counted_by result; urn = urn.new }
        ≡ withdrawal k d urn.old juror }
{
    if !is_graded(k, d) {
        return Err(Refusal::Shape);
    }
    let looked = facts::check(k, d, urn, juror).ok_or(Refusal::Urn)?;
    let ballots = decide(k, d, looked.facts, juror)?;
    if let Some(place) = looked.position {
        take_ballot(k, d, urn, place.before, place.slot);
    }
    Ok(ballots)
}
