// The entry point that makes a lent table into an empty urn.
ghost use Rattle.std.specs.Prelude.{◌≡◌};
ghost use Rattle.urn_chains.specs.Slots.{bytes_of};
ghost use Rattle.urn_chains.specs.inner.Table.{SlotTable};
ghost use Rattle.urn.specs.Facts.{counted_by};
ghost use Rattle.urn.specs.Empty.{all_free, emptying};

use crate::admit::is_graded;
use crate::answer::Answer;
use jury::reason::Refusal;
use urn_chains::sound;

// Frees all slots from 1 on, in a table of slots for ballots of `bytes` bytes. It goes from the last slot to the
// first and puts each before the others, so the free chain is in order. A slot number is below 256, so the cast needs
// no `try_from`.
fn free_all(urn: &mut [u8], bytes: usize, slots: usize)
    requires { SlotTable bytes slots urn.old }
    ensures { urn.new ≡ bytes_of (all_free slots bytes) }
{
    urn.fill(0);
    let size = 2 + bytes;
    // Slot `left` starts at byte `at`. A `while`: both count down, and the loop needs no product; `(1..slots).rev()`
    // takes twice the time.
    let mut left = slots - 1;
    let mut at = left * size;
    let mut first = 0u8;
    while 0 < left {
        urn[at] = first;
        first = left as u8;
        at -= size;
        left -= 1;
    }
    urn[1] = first;
}

// Makes a table that has the length of an urn into an empty urn, whatever its bytes were.
pub fn empty(k: usize, d: usize, urn: &mut [u8]) -> Answer
    ensures { record { answer = counted_by result; urn = urn.new } ≡ emptying k d urn.old }
{
    if !is_graded(k, d) {
        return Err(Refusal::Shape);
    }
    let bytes = k * d;
    let slots = sound::slots_in(bytes, urn.len());
    if slots == 0 {
        return Err(Refusal::Urn);
    }
    free_all(urn, bytes, slots);
    Ok(0)
}
