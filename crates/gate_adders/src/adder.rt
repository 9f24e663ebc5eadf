// Adders of bits. Each has three gates from the writer's wire n on: the sum is at n + 1, the carry at n + 2.
ghost use Rattle.gate_words.specs.Writing.{Room, Wrote};
ghost use Rattle.gate_words.specs.Adder.{full_adder, half_adder, increment};

use gate_words::writer::Writer;
use gates::kind;

// Adds the wires s, u and v.
pub(crate) fn full_adder(start: Writer, table: &mut [u32], s: u32, u: u32, v: u32) -> Writer
    requires { Room start 3 }
    ensures { Wrote start table.old (full_adder start.wire s u v) table.new result }
{
    let n = start.wire;
    let first = start.emit(table, kind::XOR, s, u, 0);
    let second = first.emit(table, kind::XOR, n, v, 0);
    second.emit(table, kind::CHOICE, n, v, s)
}

// Adds the wires s and u, and the public bit e.
pub(crate) fn half_adder(start: Writer, table: &mut [u32], s: u32, u: u32, e: u32) -> Writer
    requires { Room start 3 }
    ensures { Wrote start table.old (half_adder start.wire s u e) table.new result }
{
    let n = start.wire;
    let first = start.emit(table, kind::XOR, s, u, 0);
    if e == 0 {
        let second = first.emit(table, kind::COPY, n, 0, 0);
        return second.emit(table, kind::AND, s, u, 0);
    }
    let second = first.emit(table, kind::NOT, n, 0, 0);
    second.emit(table, kind::OR, s, u, 0)
}

// Adds 1 to the wire s, without a conditional gate.
pub(crate) fn increment(start: Writer, table: &mut [u32], s: u32) -> Writer
    requires { Room start 3 }
    ensures { Wrote start table.old (increment start.wire s) table.new result }
{
    let n = start.wire;
    let first = start.emit(table, kind::NOT, s, 0, 0);
    let second = first.emit(table, kind::COPY, n, 0, 0);
    second.emit(table, kind::COPY, s, 0, 0)
}
