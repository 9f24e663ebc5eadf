// The search for a juror's ballot.
ghost use Rattle.std.specs.Prelude.{◌≡◌, get_or};
ghost use Rattle.urn_chains.specs.Slots.{slots_of};
ghost use Rattle.urn_chains.specs.Chains.{chain};
ghost use Rattle.urn_chains.specs.inner.Position.{Searchable, position_of};

// A ballot's slot, and the slot before it in the ballot chain. Slot 0 comes before the first ballot.
#[derive(Clone, Copy)]
pub struct ChainPosition {
    pub before: usize,
    pub slot: usize,
}

// Searches the ballot chain for the juror's ballot. A ballot has `bytes` bytes.
pub fn find(urn: &[u8], bytes: usize, slots: usize, juror: usize) -> Option<ChainPosition>
    requires { Searchable bytes slots urn.now }
    ensures { result ≡ position_of (slots_of bytes slots urn.now) juror 0
        (chain slots (get_or urn.now 0 0) (slots_of bytes slots urn.now)) }
{
    let size = 2 + bytes;
    let mut before = 0;
    let mut count = 0;
    let mut slot = usize::from(urn[0]);
    // A `while`: the chain is followed, not counted.
    while slot != 0 {
        if count == slots {
            return None;
        }
        let at = slot * size;
        if usize::from(urn[at + 1]) == juror {
            return Some(ChainPosition { before, slot });
        }
        before = slot;
        slot = usize::from(urn[at]);
        count += 1;
    }
    None
}
