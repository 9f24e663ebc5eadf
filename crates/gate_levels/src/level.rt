// Writes the levels of a list, or compares a lent table with them. No function here is an entry point: the test of
// the list establishes what each `requires` asks.
ghost use Rattle.std.specs.Prelude.{◌≡◌, ◌+◌, ◌<◌, length};
ghost use Rattle.gates.specs.Gate.{gates_of, gate_at};
ghost use Rattle.gates.specs.inner.Marked.{Marked};
ghost use Rattle.gate_levels.specs.Levels.{wire_level, gate_level};
ghost use Rattle.gate_levels.specs.inner.Filling.{LevelReady, LevelsReady, Filled};
ghost use Rattle.gate_levels.specs.Compared.{compared};

use gates::gate::Gate;
use gates::kind;
use gates::kind::ConditionalMarks;

// A level as a number of rounds. A cast: there is no `From<u32>` for `usize`.
pub fn rounds(level: u32) -> usize
    ensures { result ≡ level }
{
    level as usize
}

// The level of wire x.
fn wire_level(inputs: usize, levels: &[u32], x: u32) -> u32
    requires { x < inputs + length levels.now }
    ensures { result ≡ wire_level inputs levels.now x }
{
    let wire = x as usize;
    if wire < inputs {
        0
    } else {
        levels[wire - inputs]
    }
}

// The level of gate g, given the levels of the gates before it.
fn gate_level(
    marks: &ConditionalMarks,
    inputs: usize,
    table: &[u32],
    g: usize,
    levels: &[u32],
) -> u32
    requires { Marked marks.now (LevelReady inputs table.now g levels.now) }
    ensures { result ≡ gate_level inputs levels.now (gate_at table.now g) }
{
    let gate = Gate::at(table, g);
    let a = wire_level(inputs, levels, gate.a);
    let b = wire_level(inputs, levels, gate.b);
    let c = wire_level(inputs, levels, gate.c);
    let deepest = a.max(b).max(c);
    deepest + u32::from(kind::conditional(marks, gate.kind))
}

// Writes the level of each gate, and returns the largest, R.
pub fn write(inputs: usize, table: &[u32], levels: &mut [u32]) -> usize
    requires { LevelsReady inputs table.now levels.old }
    ensures { Filled inputs table.now result levels.new }
{
    let marks = kind::CONDITIONAL;
    let mut most: u32 = 0;
    for g in 0..levels.len() {
        let level = gate_level(&marks, inputs, table, g, levels);
        levels[g] = level;
        most = most.max(level);
    }
    rounds(most)
}

// Compares a table with the list's own levels, gate by gate. If it holds them, finds the largest, R.
pub fn compare(inputs: usize, table: &[u32], levels: &[u32]) -> Option<usize>
    requires { LevelsReady inputs table.now levels.now }
    ensures { result ≡ compared inputs (gates_of table.now) levels.now }
{
    let marks = kind::CONDITIONAL;
    let mut most: u32 = 0;
    for (g, given) in levels.iter().enumerate() {
        let level = gate_level(&marks, inputs, table, g, levels);
        if *given != level {
            return None;
        }
        most = most.max(level);
    }
    Some(rounds(most))
}
