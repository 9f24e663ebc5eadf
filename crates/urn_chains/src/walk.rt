// Walks along the two chains of an urn.
ghost use Rattle.std.specs.Prelude.{◌≡◌, ◌&&◌, ◌*◌, T, get_or};
ghost use Rattle.urn_chains.specs.Slots.{slots_of, slot_at};
ghost use Rattle.urn_chains.specs.Chains.{chain};
ghost use Rattle.urn_chains.specs.Sound.{graded_shape, good_juror, good_ballot, all_zero};
ghost use Rattle.urn_chains.specs.inner.Table.{SlotTable, GradedTable};
ghost use Rattle.urn_chains.specs.inner.Walk.{BallotLook, FreeLook, walked, no_marks, looked, ballot_at, free_at, ballots_from, free_from};

use jury::shape::Shape;

// What a walk along a chain of sound slots found: marks for all slots met so far, and the chain's length.
#[derive(Clone, Copy)]
pub struct Walk {
    pub marks: [bool; 256],
    pub count: usize,
}

// What a look at a sound slot of a chain finds: its juror and the index of the next slot.
#[derive(Clone, Copy)]
pub struct Link {
    pub juror: usize,
    pub next: usize,
}

// Whether all bytes are 0. All of them are looked at: a search that could end early could not be vectorised.
pub fn is_zero(bytes: &[u8]) -> bool
    ensures { result ≡ all_zero bytes.now }
{
    let mut zero = true;
    for byte in bytes {
        if *byte != 0 {
            zero = false;
        }
    }
    zero
}

// Whether a slot of the ballot chain holds a juror's number and a good ballot. Jurors are 1 to 255, so the only
// other byte is 0.
fn holds_ballot(k: usize, d: usize, juror: u8, ballot: &[u8]) -> bool
    requires { T (graded_shape k d) }
    ensures { result ≡ (good_juror juror && good_ballot k d ballot.now) }
{
    if juror == 0 {
        return false;
    }
    let shape = Shape {
        candidates: k,
        grades: d,
        ballots: 1,
    };
    let tested = jury::ballots::test(shape, ballot);
    tested.is_ok()
}

// Looks at a slot of the ballot chain.
fn look_at_ballot(urn: &[u8], k: usize, d: usize, slots: usize, slot: usize) -> Option<Link>
    requires { BallotLook k d slots slot urn.now }
    ensures { result ≡ looked (ballot_at k d (slots_of (k * d) slots urn.now) slot)
        (slot_at (slots_of (k * d) slots urn.now) slot) }
{
    if slots <= slot {
        return None;
    }
    let size = 2 + k * d;
    let at = slot * size;
    let from = at + 2;
    let end = at + size;
    let juror = urn[at + 1];
    if !holds_ballot(k, d, juror, &urn[from..end]) {
        return None;
    }
    Some(Link {
        juror: usize::from(juror),
        next: usize::from(urn[at]),
    })
}

// Looks at a slot of the free chain. Ballots have `bytes` bytes.
fn look_at_free(urn: &[u8], bytes: usize, slots: usize, slot: usize) -> Option<Link>
    requires { FreeLook bytes slots slot urn.now }
    ensures { result ≡ looked (free_at (slots_of bytes slots urn.now) slot)
        (slot_at (slots_of bytes slots urn.now) slot) }
{
    if slots <= slot {
        return None;
    }
    let size = 2 + bytes;
    let at = slot * size;
    let from = at + 2;
    let end = at + size;
    let juror = urn[at + 1];
    if juror != 0 {
        return None;
    }
    if !is_zero(&urn[from..end]) {
        return None;
    }
    Some(Link {
        juror: usize::from(juror),
        next: usize::from(urn[at]),
    })
}

// Walks along the ballot chain. A chain that has not ended after as many slots as there are will never end.
pub fn walk_ballots(urn: &[u8], k: usize, d: usize, slots: usize) -> Option<Walk>
    requires { GradedTable k d slots urn.now }
    ensures { result ≡ walked
        (ballots_from k d (slots_of (k * d) slots urn.now) slots (get_or urn.now 0 0) no_marks no_marks)
        (chain slots (get_or urn.now 0 0) (slots_of (k * d) slots urn.now)) no_marks }
{
    let mut marks = [false; 256];
    let mut jurors = [false; 256];
    let mut count = 0;
    let mut slot = usize::from(urn[0]);
    // A `while`: the chain is followed, not counted.
    while slot != 0 {
        if count == slots {
            return None;
        }
        let link = look_at_ballot(urn, k, d, slots, slot)?;
        if marks[slot] {
            return None;
        }
        if jurors[link.juror] {
            return None;
        }
        marks[slot] = true;
        jurors[link.juror] = true;
        count += 1;
        slot = link.next;
    }
    Some(Walk { marks, count })
}

// Walks along the free chain in the same way. `met` has marks for the slots of the ballot chain.
pub fn walk_free(urn: &[u8], bytes: usize, slots: usize, met: [bool; 256]) -> Option<Walk>
    requires { SlotTable bytes slots urn.now }
    ensures { result ≡ walked
        (free_from (slots_of bytes slots urn.now) slots (get_or urn.now 1 0) met)
        (chain slots (get_or urn.now 1 0) (slots_of bytes slots urn.now)) met }
{
    let mut marks = met;
    let mut count = 0;
    let mut slot = usize::from(urn[1]);
    // A `while`, as above. The two walks stay apart: a slot of ballots is sound for other reasons than a free one.
    while slot != 0 {
        if count == slots {
            return None;
        }
        let link = look_at_free(urn, bytes, slots, slot)?;
        if marks[slot] {
            return None;
        }
        marks[slot] = true;
        count += 1;
        slot = link.next;
    }
    Some(Walk { marks, count })
}
