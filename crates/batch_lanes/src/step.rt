// Evaluation over words. Nothing here is an entry point: the tests of list and buffers establish what a `requires`
// asks. The same is asked of words as of bytes in the step over bytes, `gates::step`. It stays a function of its own:
// over bytes one equation says what is left, over words an equation for each lane, and so is each proof.
ghost use Rattle.std.specs.Prelude.{◌≡◌, ◌++◌, ◌-◌, length, take, drop};
ghost use Rattle.gates.specs.inner.Marked.{Marked};
ghost use Rattle.gates.specs.inner.Step.{StepReady, RunReady, GateReady, CloseReady};
ghost use Rattle.batch_lanes.specs.Run.{RunDone};
ghost use Rattle.batch_lanes.specs.inner.Step.{GateDone, StepDone};

use crate::word;
use gates::gate::Gate;
use gates::kind;
use gates::kind::ConditionalMarks;

// Evaluates gate g of the table in all lanes: stores its value in wire `own` and, if it is conditional, puts wire
// a, masked by the tape's word, on the board. Answers the number of shown words after it.
fn run_gate(
    marks: &ConditionalMarks,
    table: &[u32],
    g: usize,
    own: usize,
    tape: &[u64],
    shown: usize,
    wires: &mut [u64],
    board: &mut [u64],
) -> usize
    requires { Marked marks.now (GateReady table.now g own tape.now shown wires.old board.old) }
    ensures { GateDone table.now g own tape.now shown wires.old board.old
        wires.new board.new result }
{
    let gate = Gate::at(table, g);
    let a = wires[gate.a as usize];
    let b = wires[gate.b as usize];
    let c = wires[gate.c as usize];
    wires[own] = word::value(gate.kind, a, b, c);
    if kind::conditional(marks, gate.kind) {
        board[shown] = a ^ tape[shown];
        return shown + 1;
    }
    shown
}

// Evaluates gates from..to of a list. The inputs and the wires of the gates before `from` are already in the wire
// table. `shown` is the number of shown words before this range; the answer is their number after it.
pub fn step(
    inputs: usize,
    table: &[u32],
    from: usize,
    to: usize,
    tape: &[u64],
    shown: usize,
    wires: &mut [u64],
    board: &mut [u64],
) -> usize
    requires { StepReady inputs table.now from to tape.now shown wires.old board.old }
    ensures { StepDone inputs table.now from to tape.now shown wires.old
        board.old
        wires.new board.new result }
{
    let marks = kind::CONDITIONAL;
    let mut next = shown;
    for g in from..to {
        next = run_gate(&marks, table, g, inputs + g, tape, next, wires, board);
    }
    next
}

// Copies the last wires to the board, after the shown words.
fn close(outputs: usize, wires: &[u64], shown: usize, board: &mut [u64])
    requires { CloseReady outputs shown wires.now board.old }
    ensures { board.new ≡ take shown board.old
        ++ drop (length wires.now - outputs) wires.now }
{
    let first = wires.len() - outputs;
    basics::slice::copy(&wires[first..], &mut board[shown..]);
}

// Evaluates a whole list for 64 juries: in each lane, the wires and the board of that lane's inputs and tape.
pub fn run(
    inputs: &[u64],
    table: &[u32],
    outputs: usize,
    tape: &[u64],
    wires: &mut [u64],
    board: &mut [u64],
)
    requires { RunReady inputs.now table.now outputs tape.now wires.old board.old }
    ensures { RunDone inputs.now table.now outputs tape.now wires.new
        board.new }
{
    basics::slice::copy(inputs, &mut wires[..inputs.len()]);
    let shown = step(
        inputs.len(),
        table,
        0,
        table.len() / 4,
        tape,
        0,
        wires,
        board,
    );
    close(outputs, wires, shown, board);
}
