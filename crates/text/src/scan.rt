// A text line by line: one pass for each test, and one that stores the numbers.
ghost use Rattle.std.specs.Prelude.{◌≡◌, length, ltb, ◌&&◌};
ghost use Rattle.std.proofs.lemmas.List.Edits.{sets};
ghost use Rattle.gates.specs.Gate.{numbers_of};
ghost use Rattle.gates.specs.Test.{first_bad};
ghost use Rattle.text.specs.Text.{lines_of, first_malformed, gates_in};
ghost use Rattle.text.specs.inner.Scan.{ScanReady, PutReady};

use gates::gate::Gate;
use text_lines::line;
use text_lines::line::LINE_FEED;

// How many lines a text has: its line feeds, plus one if characters follow the last of them.
pub(crate) fn line_count(text: &[u8]) -> usize
    ensures { result ≡ length (lines_of text.now) }
{
    if text.is_empty() {
        return 0;
    }
    let mut feeds: usize = 0;
    for c in text {
        if *c == LINE_FEED {
            feeds += 1;
        }
    }
    if text[text.len() - 1] == LINE_FEED {
        feeds
    } else {
        feeds + 1
    }
}

// The number of the first malformed line.
pub(crate) fn first_malformed(text: &[u8]) -> Option<usize>
    ensures { result ≡ first_malformed 0 (lines_of text.now) }
{
    let mut at = 0;
    let mut i = 0;
    // A `while`, here and below: each line says where the next one begins.
    while at < text.len() {
        let Some(line) = line::gate_at(text, at) else {
            return Some(i);
        };
        at = line.next;
        i += 1;
    }
    None
}

// Whether all operands name wires before the gate's own one. An unused operand is read as 0, and wire 0 is an
// input.
fn are_below(own: usize, gate: Gate) -> bool
    ensures { result ≡ (ltb gate.a own && ltb gate.b own && ltb gate.c own) }
{
    if own <= gate.a as usize {
        return false;
    }
    if own <= gate.b as usize {
        return false;
    }
    (gate.c as usize) < own
}

// The first bad gate of a text whose lines are all gates.
pub(crate) fn first_bad(inputs: usize, text: &[u8]) -> Option<usize>
    requires { ScanReady inputs text.now }
    ensures { result ≡ first_bad inputs 0 (gates_in (lines_of text.now)) }
{
    let mut at = 0;
    let mut i = 0;
    while at < text.len() {
        let line = line::gate_at(text, at)?;
        if !are_below(inputs + i, line.gate) {
            return Some(i);
        }
        at = line.next;
        i += 1;
    }
    None
}

// Stores the numbers of a text whose lines are all gates.
pub(crate) fn put_gates(text: &[u8], output: &mut [u32])
    requires { PutReady text.now output.old }
    ensures { output.new
        ≡ sets output.old 0 (numbers_of (gates_in (lines_of text.now))) }
{
    let mut at = 0;
    let mut i = 0;
    while at < text.len() {
        let Some(line) = line::gate_at(text, at) else {
            return;
        };
        output[i] = line.gate.kind;
        output[i + 1] = line.gate.a;
        output[i + 2] = line.gate.b;
        output[i + 3] = line.gate.c;
        at = line.next;
        i += 4;
    }
}
