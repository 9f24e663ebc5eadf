// Reads one gate from a line of text.
ghost use Rattle.std.specs.Prelude.{◌≤◌, length, drop};
ghost use Rattle.text_lines.specs.Line.{operand_in, gate_in};
ghost use Rattle.text_lines.specs.inner.Found.{NumberRead, LineRead};

use crate::decimal;
use crate::decimal::Found;
use gates::gate::Gate;
use gates::kind;

// What precedes each operand, and what ends a line.
pub const SPACE: u8 = 32;

pub const LINE_FEED: u8 = 10;

// The gate of a line and the place after the line.
#[derive(Clone, Copy)]
pub struct Line {
    pub gate: Gate,
    pub next: usize,
}

// The operand at a place of a text: a space and a number. An operand that is not in use has no characters.
fn operand(used: bool, text: &[u8], at: usize) -> Option<Found>
    requires { at ≤ length text.now }
    ensures { NumberRead text.now (operand_in used (drop at text.now)) result }
{
    if !used {
        return Some(Found { value: 0, next: at });
    }
    if text.len() <= at {
        return None;
    }
    if text[at] != SPACE {
        return None;
    }
    decimal::number(text, at + 1)
}

// The gate whose line begins at a place of a text.
pub fn gate_at(text: &[u8], at: usize) -> Option<Line>
    requires { at ≤ length text.now }
    ensures { LineRead text.now (gate_in (drop at text.now)) result }
{
    let kind = decimal::number(text, at)?;
    if kind::KINDS <= kind.value {
        return None;
    }
    let counts = kind::OPERANDS;
    let count = kind::operands(&counts, kind.value);
    let a = operand(0 < count, text, kind.next)?;
    let b = operand(1 < count, text, a.next)?;
    let c = operand(2 < count, text, b.next)?;
    if text.len() <= c.next {
        return None;
    }
    let ended = text[c.next] == LINE_FEED;
    if !ended {
        return None;
    }
    let gate = Gate {
        kind: kind.value,
        a: a.value,
        b: b.value,
        c: c.value,
    };
    Some(Line {
        gate,
        next: c.next + 1,
    })
}
