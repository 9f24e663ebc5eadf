// Puts one gate into a text as a line.
ghost use Rattle.std.specs.Prelude.{◌≡◌, ◌+◌, ◌≤◌, length};
ghost use Rattle.text_lines.specs.Line.{operand_text, line_of};
ghost use Rattle.text_lines.specs.inner.Stored.{Stored, LineLength};

use crate::decimal;
use crate::line::{LINE_FEED, SPACE};
use gates::gate::Gate;
use gates::kind;

// How many characters an operand has.
fn operand_length(used: bool, n: u32) -> usize
    ensures { result ≡ length (operand_text used n) }
{
    if used { decimal::count(n) + 1 } else { 0 }
}

// How many characters a gate's line has.
pub fn line_length(gate: Gate) -> usize
    ensures { LineLength gate result }
{
    let counts = kind::OPERANDS;
    let count = kind::operands(&counts, gate.kind);
    let kind_length = decimal::count(gate.kind);
    let a_length = operand_length(0 < count, gate.a);
    let b_length = operand_length(1 < count, gate.b);
    let c_length = operand_length(2 < count, gate.c);
    kind_length + a_length + b_length + c_length + 1
}

// Puts a space and the operand if it is in use, and answers the place after it.
fn put_operand(used: bool, n: u32, at: usize, output: &mut [u8]) -> usize
    requires { at + length (operand_text used n) ≤ length output.old }
    ensures { Stored output.old at (operand_text used n) output.new result }
{
    if !used {
        return at;
    }
    output[at] = SPACE;
    decimal::put(n, at + 1, output)
}

// Puts a gate's line, and answers the place after it.
pub fn put_line(gate: Gate, at: usize, output: &mut [u8]) -> usize
    requires { at + length (line_of gate) ≤ length output.old }
    ensures { Stored output.old at (line_of gate) output.new result }
{
    let counts = kind::OPERANDS;
    let count = kind::operands(&counts, gate.kind);
    let kind_end = decimal::put(gate.kind, at, output);
    let a_end = put_operand(0 < count, gate.a, kind_end, output);
    let b_end = put_operand(1 < count, gate.b, a_end, output);
    let c_end = put_operand(2 < count, gate.c, b_end, output);
    output[c_end] = LINE_FEED;
    c_end + 1
}
