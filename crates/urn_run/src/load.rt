// Loads the chain's ballots into the wire table.
ghost use Rattle.std.specs.Prelude.{◌≡◌, ◌++◌, length, drop};
ghost use Rattle.urn_run.specs.Run.{chain_ballots};
ghost use Rattle.urn_run.specs.inner.Load.{Loadable};

// Copies the ballots of a sound urn to the start of the wire table, in chain order.
pub(crate) fn load(k: usize, d: usize, urn: &[u8], wires: &mut [u8])
    requires { Loadable k d urn.now wires.old }
    ensures { wires.new ≡ chain_ballots k d urn.now
        ++ drop (length (chain_ballots k d urn.now)) wires.old }
{
    let bytes = k * d;
    let size = 2 + bytes;
    let mut count = 0;
    let mut slot = usize::from(urn[0]);
    // A `while`: the chain is followed, not counted.
    while slot != 0 {
        let at = slot * size;
        let from = at + 2;
        let end = at + size;
        let to = count * bytes;
        basics::slice::copy(&urn[from..end], &mut wires[to..to + bytes]);
        slot = usize::from(urn[at]);
        count += 1;
    }
}
