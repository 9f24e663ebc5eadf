// The test of an urn.
ghost use Rattle.std.specs.Prelude.{◌≡◌, cond, ◌*◌, ◌≤◌, T, length};
ghost use Rattle.jury.specs.Shape.{most_candidates, most_grades};
ghost use Rattle.urn_chains.specs.Slots.{slots_of};
ghost use Rattle.urn_chains.specs.Chains.{ballot_chain};
ghost use Rattle.urn_chains.specs.Sound.{graded_shape, slot_count, urn_length, entries_of, sound_slots, sound};
ghost use Rattle.urn_chains.specs.inner.Table.{GradedTable, soundness};

use crate::walk;

pub const LEAST_SLOTS: usize = 2;

pub const MOST_SLOTS: usize = 256;

// How many slots `length` bytes are, if a ballot has `bytes` bytes; 0 if no urn has that length.
pub fn slots_in(bytes: usize, length: usize) -> usize
    requires { bytes ≤ most_candidates * most_grades }
    ensures { result ≡ cond (urn_length bytes length) (slot_count bytes length) 0 }
{
    let size = 2 + bytes;
    if length % size != 0 {
        return 0;
    }
    let slots = length / size;
    if slots < LEAST_SLOTS {
        return 0;
    }
    if MOST_SLOTS < slots {
        return 0;
    }
    slots
}

// Tests slot 0 and both chains of an urn of the right length, and answers how many ballots a sound one has. No slot
// is in both chains; so if the chains together have as many slots as there are from 1 on, none is left out.
fn test_slots(k: usize, d: usize, urn: &[u8], slots: usize) -> Option<usize>
    requires { GradedTable k d slots urn.now }
    ensures { result ≡ soundness (sound_slots k d (slots_of (k * d) slots urn.now))
        (length (ballot_chain (slots_of (k * d) slots urn.now))) }
{
    let bytes = k * d;
    let size = 2 + bytes;
    if !walk::is_zero(&urn[2..size]) {
        return None;
    }
    let ballots = walk::walk_ballots(urn, k, d, slots)?;
    let free = walk::walk_free(urn, bytes, slots, ballots.marks)?;
    if ballots.count + free.count != slots - 1 {
        return None;
    }
    Some(ballots.count)
}

// Tests an urn of any length, with any bytes, and answers how many ballots a sound one has.
pub fn test(k: usize, d: usize, urn: &[u8]) -> Option<usize>
    requires { T (graded_shape k d) }
    ensures { result ≡ soundness (sound k d urn.now) (length (entries_of k d urn.now)) }
{
    let slots = slots_in(k * d, urn.len());
    if slots == 0 {
        return None;
    }
    test_slots(k, d, urn, slots)
}
