// The facts about an urn that decide an admission or a withdrawal.
ghost use Rattle.std.specs.Prelude.{T};
ghost use Rattle.urn_chains.specs.Sound.{graded_shape};
ghost use Rattle.urn.specs.inner.Ready.{UrnChecked};

use urn_chains::find::ChainPosition;
use urn_chains::{find, sound};

// Of a sound urn: how many ballots it has, whether this juror's is among them, and whether no slot is free.
// `present` is a field, because the definitions of the outcomes read it.
#[derive(Clone, Copy)]
pub struct Facts {
    pub ballots: usize,
    pub present: bool,
    pub full: bool,
}

// The facts about a sound urn, and where the juror's ballot is.
#[derive(Clone, Copy)]
pub(crate) struct UrnCheck {
    pub(crate) facts: Facts,
    pub(crate) position: Option<ChainPosition>,
}

// Tests an urn and searches it for the juror's ballot.
pub(crate) fn check(k: usize, d: usize, urn: &[u8], juror: usize) -> Option<UrnCheck>
    requires { T (graded_shape k d) }
    ensures { UrnChecked k d urn.now juror result }
{
    let ballots = sound::test(k, d, urn)?;
    let bytes = k * d;
    let slots = urn.len() / (2 + bytes);
    let full = urn[1] == 0;
    let position = find::find(urn, bytes, slots, juror);
    let facts = Facts {
        ballots,
        present: position.is_some(),
        full,
    };
    Some(UrnCheck { facts, position })
}
