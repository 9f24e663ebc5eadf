// The test of a gate list, the own one or a stranger's.
ghost use Rattle.std.specs.Prelude.{◌≡◌, ◌&&◌, ◌+◌, ◌<◌, ◌^◌, eqb, length};
ghost use Rattle.gates.specs.Kind.{operand_counts};
ghost use Rattle.gates.specs.Gate.{gates_of};
ghost use Rattle.gates.specs.Board.{conditional_count};
ghost use Rattle.gates.specs.Test.{good_gate, first_bad, judged, tested};

use crate::gate::Gate;
use crate::kind;
use crate::kind::OperandCounts;

// The most gates that a list may have: 2^20.
pub const MOST_GATES: usize = 1048576;

// 2^32, which no 32-bit operand reaches.
const OPERAND_LIMIT: usize = 4294967296;

// A list's own size: its G gates, and the C of them that are conditional.
#[derive(Clone, Copy)]
pub struct ListSize {
    pub gates: usize,
    pub conditional: usize,
}

// What is wrong with a list. A bad gate is named by its place, counted from 0.
#[derive(Clone, Copy)]
pub enum ListFault {
    PartOfAGate,
    TooFewGates,
    TooManyGates,
    BadGate(usize),
}

// Whether these operands, which the kind does not use, are all 0.
fn are_zero(a: u32, b: u32, c: u32) -> bool
    ensures { result ≡ (eqb a 0 && eqb b 0 && eqb c 0) }
{
    a == 0 && b == 0 && c == 0
}

// Whether this is good as gate g.
fn gate_is_good(inputs: usize, g: usize, counts: &OperandCounts, gate: Gate) -> bool
    requires { (counts.now ≡ operand_counts) × (g < 2 ^ 62) }
    ensures { result ≡ good_gate (inputs + g) gate }
{
    // Only the match in `apply` says whether the kind is known. The operands do not matter here.
    if kind::apply(gate.kind, 0, 0, 0).is_none() {
        return false;
    }
    let count = kind::operands(counts, gate.kind);
    // The gate's own wire, inputs + g. From 2^32 inputs on that sum could wrap; from 2^32 on, every 32-bit operand is
    // below it all the same. A sum that saturates would make the test of a list a third slower.
    let own = inputs.min(OPERAND_LIMIT) + g;
    // Branches on the count: a test of each operand by whether it is in use misses the bar, 1.1 times the time in C.
    if count == 0 {
        return are_zero(gate.a, gate.b, gate.c);
    }
    if own <= gate.a as usize {
        return false;
    }
    if count == 1 {
        return are_zero(0, gate.b, gate.c);
    }
    if own <= gate.b as usize {
        return false;
    }
    if count == 2 {
        return gate.c == 0;
    }
    (gate.c as usize) < own
}

// Tests the gates of a table in order, and counts the conditional ones.
fn test_gates(inputs: usize, table: &[u32]) -> Result<ListSize, ListFault>
    ensures { result ≡ judged (first_bad inputs 0 (gates_of table.now)) (length (gates_of table.now))
        (conditional_count (gates_of table.now)) }
{
    let gates = table.len() / 4;
    let counts = kind::OPERANDS;
    let marks = kind::CONDITIONAL;
    let mut conditional: usize = 0;
    for g in 0..gates {
        let gate = Gate::at(table, g);
        if !gate_is_good(inputs, g, &counts, gate) {
            return Err(ListFault::BadGate(g));
        }
        conditional += kind::mark(&marks, gate.kind);
    }
    Ok(ListSize { gates, conditional })
}

// Tests a list for a given number of inputs and of outputs.
pub fn test(inputs: usize, outputs: usize, table: &[u32]) -> Result<ListSize, ListFault>
    ensures { result ≡ tested inputs outputs table.now }
{
    if table.len() % 4 != 0 {
        return Err(ListFault::PartOfAGate);
    }
    let gates = table.len() / 4;
    if gates < outputs {
        return Err(ListFault::TooFewGates);
    }
    if MOST_GATES < gates {
        return Err(ListFault::TooManyGates);
    }
    test_gates(inputs, table)
}
