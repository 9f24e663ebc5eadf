// What is kept for each pair of k candidates: the first wire of their word, or a wire about them. For i and j it is
// at place i * k + j. The list is flat, as `kept_of` has it, because a table's blocks have one number each. Wires
// are cast to places, here and where they are kept: there is no `From<u32>` for `usize`.
ghost use Rattle.std.specs.Prelude.{◌≡◌};
ghost use Rattle.ranked_circuit.specs.Stages as spec;
ghost use Rattle.ranked_blocks.specs.Ranked.{kept_of};
ghost use Rattle.ranked_blocks.specs.inner.Entries.{KeptReady, CutReady};

// The wire kept for i and j.
pub fn kept(wires: &[u32], k: u32, i: u32, j: u32) -> u32
    requires { KeptReady wires.now k i j }
    ensures { result ≡ kept_of wires.now k i j }
{
    wires[(i * k + j) as usize]
}

// Whether stage m of the paths leaves the word of i and j as it is.
pub(crate) fn stays(m: u32, i: u32, j: u32) -> bool
    ensures { result ≡ spec.stays m i j }
{
    if i == j {
        return true;
    }
    if m == 0 {
        return i != 0 && j != 0;
    }
    i == m - 1 || j == m - 1
}

// How many of a word's highest digits are the high half in stage m: half of its digits if the next stage waits for
// the word of i and j, otherwise none.
pub(crate) fn cut_at(k: u32, digits: u32, m: u32, i: u32, j: u32) -> u32
    requires { CutReady k digits }
    ensures { result ≡ spec.cut_at k digits m i j }
{
    if k - 1 <= m {
        return 0;
    }
    if i == m || j == m {
        return (digits + 1) / 2;
    }
    0
}
