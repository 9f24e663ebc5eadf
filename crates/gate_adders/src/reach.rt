// Whether the sum of two words and a public bit needs one more digit than the words have: a carry, without the sum.
ghost use Rattle.std.specs.Prelude.{suc, ◌+◌, ◌*◌};
ghost use Rattle.gate_words.specs.Writing.{Room, Wrote};
ghost use Rattle.gate_words.specs.Reach.{carry_bit, carries, carries_by, high_reach, reach_halves, reach, reach_span};
ghost use Rattle.gate_words.specs.inner.Ready.{WordsReady};

use gate_words::choice::chain_end;
use gate_words::writer::Writer;
use gates::kind;

// The carry out of one digit of each word and the public bit.
fn carry_bit(w: Writer, table: &mut [u32], x: u32, y: u32, bit: u32) -> Writer
    requires { Room w 1 }
    ensures { Wrote w table.old (carry_bit x y bit) table.new result }
{
    if bit == 0 {
        return w.emit(table, kind::AND, x, y, 0);
    }
    w.emit(table, kind::OR, x, y, 0)
}

// The carry out of one digit, with the carry in at wire `carry`.
fn carry_next(w: Writer, table: &mut [u32], x: u32, y: u32, carry: u32) -> Writer
    requires { Room w 2 }
    ensures { Wrote w table.old (carries w.wire x y carry 1) table.new result }
{
    let differ = w.emit(table, kind::XOR, x, y, 0);
    differ.emit(table, kind::CHOICE, w.wire, carry, x)
}

// The carry out of `digits` digits, with the carry in at wire `carry`.
fn carries(w: Writer, table: &mut [u32], x: u32, y: u32, carry: u32, digits: u32) -> Writer
    requires { WordsReady w (2 * digits) x y digits }
    ensures { Wrote w table.old (carries w.wire x y carry digits) table.new result }
{
    let mut next = w;
    let mut last = carry;
    for i in 0..digits {
        let n = next.wire;
        next = carry_next(next, table, x + i, y + i, last);
        last = n + 1;
    }
    next
}

// The same, but the wires from f on already say in which digits the words differ.
fn carries_by(w: Writer, table: &mut [u32], f: u32, x: u32, carry: u32, digits: u32) -> Writer
    requires { WordsReady w digits f x digits }
    ensures { Wrote w table.old (carries_by w.wire f x carry digits) table.new result }
{
    let mut next = w;
    let mut last = carry;
    for i in 0..digits {
        let n = next.wire;
        next = next.emit(table, kind::CHOICE, f + i, last, x + i);
        last = n;
    }
    next
}

// The carry out of the high half, of high + 1 digits, with the carry in at wire `carry`.
fn high_reach(w: Writer, table: &mut [u32], x: u32, y: u32, carry: u32, high: u32) -> Writer
    requires { WordsReady w (3 * high + 2) x y (suc high) }
    ensures { Wrote w table.old (high_reach w.wire x y carry high) table.new result }
{
    let n = w.wire;
    let differ = w.differences(table, x, y, high + 1);
    let free = carries_by(differ, table, n + 1, x + 1, x, high);
    let every = free.all_of(table, n, n + 1, 1, high);
    let all = chain_end(free.wire, n, high);
    let own = chain_end(differ.wire, x, high);
    every.emit(table, kind::CHOICE, all, carry, own)
}

// The carry out of both halves, of low + 1 and high + 1 digits.
fn reach_halves(
    w: Writer,
    table: &mut [u32],
    x: u32,
    y: u32,
    bit: u32,
    low: u32,
    high: u32,
) -> Writer
    requires { WordsReady w (2 * low + 3 * high + 3) x y (suc (suc (low + high))) }
    ensures { Wrote w table.old (reach_halves w.wire x y bit low high) table.new result }
{
    let n = w.wire;
    let first = carry_bit(w, table, x, y, bit);
    let lower = carries(first, table, x + 1, y + 1, n, low);
    high_reach(lower, table, x + 1 + low, y + 1 + low, n + 2 * low, high)
}

// Whether the sum of the words of above + 1 digits at x and y and the public bit needs one more digit. The last
// wire says so.
pub fn reach(w: Writer, table: &mut [u32], x: u32, y: u32, bit: u32, above: u32) -> Writer
    requires { WordsReady w (reach_span above) x y (suc above) }
    ensures { Wrote w table.old (reach w.wire x y bit above) table.new result }
{
    if above == 0 {
        return carry_bit(w, table, x, y, bit);
    }
    let low = (above - 1) / 2;
    reach_halves(w, table, x, y, bit, low, above - 1 - low)
}
