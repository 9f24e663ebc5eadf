// Evaluation. No function here is an entry point: the tests of this crate establish what each `requires` asks.
ghost use Rattle.std.specs.Prelude.{◌≡◌, ◌++◌, ◌+◌, ◌%◌, take};
ghost use Rattle.gates.specs.Wires.{outputs_of};
ghost use Rattle.gates.specs.inner.Marked.{Marked};
ghost use Rattle.gates.specs.inner.Step.{StepReady, FinishReady, RunReady};
ghost use Rattle.gates.specs.inner.Step.{GateReady, GateRan, Stepped, CloseReady, Evaluated};

use crate::gate::Gate;
use crate::kind;
use crate::kind::ConditionalMarks;

// A bit under its mask: their sum modulo 2. Both are reduced first, so the sum cannot wrap.
fn masked(a: u8, m: u8) -> u8
    ensures { result ≡ (a + m) % 2 }
{
    (a % 2 + m % 2) % 2
}

// Evaluates gate g of the table: stores its value in wire `own` and, if it is conditional, its shown bit on the
// board. Returns the number of shown bits after this gate. The buffers are lent one by one, as the callers hold them:
// a struct of borrows would only be made and taken apart again.
fn run_gate(
    marks: &ConditionalMarks,
    table: &[u32],
    g: usize,
    own: usize,
    tape: &[u8],
    shown: usize,
    wires: &mut [u8],
    board: &mut [u8],
) -> usize
    requires { Marked marks.now (GateReady table.now g own tape.now shown wires.old board.old) }
    ensures { GateRan table.now g own tape.now shown wires.old board.old result
        wires.new board.new }
{
    let gate = Gate::at(table, g);
    let a = wires[gate.a as usize];
    let b = wires[gate.b as usize];
    let c = wires[gate.c as usize];
    wires[own] = kind::value(gate.kind, a, b, c);
    if kind::conditional(marks, gate.kind) {
        board[shown] = masked(a, tape[shown]);
        return shown + 1;
    }
    shown
}

// Evaluates gates from..to of a list. The inputs and the wires of the gates before `from` are in the table already.
// `shown` is the number of shown bits before this range; the result is their number after it.
pub fn step(
    inputs: usize,
    table: &[u32],
    from: usize,
    to: usize,
    tape: &[u8],
    shown: usize,
    wires: &mut [u8],
    board: &mut [u8],
) -> usize
    requires { StepReady inputs table.now from to tape.now shown wires.old board.old }
    ensures { Stepped inputs table.now from to tape.now shown wires.old
        board.old result wires.new board.new }
{
    let marks = kind::CONDITIONAL;
    let mut next = shown;
    for g in from..to {
        next = run_gate(&marks, table, g, inputs + g, tape, next, wires, board);
    }
    next
}

// Copies the outputs, which are the last wires, to the board after the shown bits.
pub fn close(outputs: usize, wires: &[u8], shown: usize, board: &mut [u8])
    requires { CloseReady outputs shown wires.now board.old }
    ensures { board.new ≡ take shown board.old ++ outputs_of outputs wires.now }
{
    let first = wires.len() - outputs;
    basics::slice::copy(&wires[first..], &mut board[shown..]);
}

// Evaluates a list whose inputs are already at the front of the wire table: all gates, then the outputs at the end
// of the board.
pub fn finish(
    inputs: usize,
    table: &[u32],
    outputs: usize,
    tape: &[u8],
    wires: &mut [u8],
    board: &mut [u8],
)
    requires { FinishReady inputs table.now outputs tape.now wires.old board.old }
    ensures { Evaluated (take inputs wires.old) table.now outputs tape.now
        wires.new board.new }
{
    let shown = step(inputs, table, 0, table.len() / 4, tape, 0, wires, board);
    close(outputs, wires, shown, board);
}

// Evaluates a whole list: copies the inputs to the front of the wire table, then calls `finish`.
pub fn run(
    inputs: &[u8],
    table: &[u32],
    outputs: usize,
    tape: &[u8],
    wires: &mut [u8],
    board: &mut [u8],
)
    requires { RunReady inputs.now table.now outputs tape.now wires.old board.old }
    ensures { Evaluated inputs.now table.now outputs tape.now wires.new
        board.new }
{
    basics::slice::copy(inputs, &mut wires[..inputs.len()]);
    finish(inputs.len(), table, outputs, tape, wires, board);
}
