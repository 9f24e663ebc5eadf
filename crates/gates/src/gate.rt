// A gate, and the gates of a table of numbers.
ghost use Rattle.std.specs.Prelude.{◌≡◌, ◌+◌, ◌*◌, ◌<◌, length};
ghost use Rattle.gates.specs.Gate.{gate_at};

// A gate: its kind and its three operands. It may be any numbers, as a stranger's list may. Where a wire is looked up,
// its number is cast: there is no `From<u32>` for `usize`.
#[derive(Clone, Copy)]
pub struct Gate {
    pub kind: u32,
    pub a: u32,
    pub b: u32,
    pub c: u32,
}

impl Gate {
    // Gate g of a table, which holds four numbers for each.
    #[tactic(auto, unfolding(crate::specs::Open::Gate::gate_at))]
    pub fn at(table: &[u32], g: usize) -> Gate
        requires { 4 * g + 3 < length table.now }
        ensures { result ≡ gate_at table.now g }
    {
        let at = 4 * g;
        Gate {
            kind: table[at],
            a: table[at + 1],
            b: table[at + 2],
            c: table[at + 3],
        }
    }
}
