// Words compared in two halves, side by side. The low half has low + 1 digits, the high half `high` digits.
ghost use Rattle.std.specs.Prelude.{◌≡◌, suc, ◌+◌, ◌<◌};
ghost use Rattle.gate_words.specs.Limits.{writer_limit};
ghost use Rattle.gate_words.specs.Writing.{Wrote};
ghost use Rattle.gate_words.specs.Halves.{any_of_halves, unequal_halves, unequal_span, unequal_at, above_halves};
ghost use Rattle.gate_words.specs.Halves.{high_unequal_at, compare_halves, compare_span, above_at};
ghost use Rattle.gate_words.specs.inner.Ready.{WordReady, WordsReady};

use crate::choice::chain_end;
use crate::writer::Writer;
use gates::kind;

// The wire that says whether words of above + 1 digits differ, if their comparison starts at wire n.
pub fn unequal_at(n: u32, above: u32) -> u32
    requires { n + unequal_span above < writer_limit }
    ensures { result ≡ unequal_at n above }
{
    chain_end(n + above + 1, n, above)
}

// The wire that says, if the words differ, whether the word at x is above.
pub fn above_at(n: u32, x: u32, above: u32) -> u32
    requires { n + compare_span above < writer_limit }
    ensures { result ≡ above_at n x above }
{
    chain_end(n + above + 1 + above, x, above)
}

// The wire that says whether the high halves differ.
fn high_unequal_at(n: u32, low: u32, high: u32) -> u32
    requires { n + unequal_span (low + high) < writer_limit }
    ensures { result ≡ high_unequal_at n low high }
{
    if high == 0 {
        return n;
    }
    chain_end(n + low + high + 1 + low, n + 1 + low, high - 1)
}

impl Writer {
    // Whether wire s or one of low + high wires from `first` on is 1, by two chains side by side.
    fn any_of_halves(self, table: &mut [u32], s: u32, first: u32, low: u32, high: u32) -> Writer
        requires { WordReady self (low + high) first (low + high) }
        ensures { Wrote self table.old (any_of_halves self.wire s first low high) table.new result }
    {
        let n = self.wire;
        let lower = self.any_of(table, s, first, 1, low);
        if high == 0 {
            return lower;
        }
        let start = first + low;
        let end = chain_end(n + low, start, high - 1);
        let upper = lower.any_of(table, start, start + 1, 1, high - 1);
        upper.emit(table, kind::OR, end, chain_end(n, s, low), 0)
    }

    // Whether the word at x is above another that differs from it. The wires from f on say in which digits they
    // differ, and wire e whether they differ in the high half.
    fn above_halves(self, table: &mut [u32], f: u32, x: u32, e: u32, low: u32, high: u32) -> Writer
        requires { WordsReady self (low + high) f x (suc (low + high)) }
        ensures { Wrote self table.old (above_halves self.wire f x e low high) table.new result }
    {
        let n = self.wire;
        let lower = self.above(table, f + 1, x + 1, x, low);
        if high == 0 {
            return lower;
        }
        let start = x + 1 + low;
        let end = chain_end(n + low, start, high - 1);
        let upper = lower.above(table, f + 1 + low + 1, start + 1, start, high - 1);
        upper.emit(table, kind::CHOICE, e, end, chain_end(n, x, low))
    }

    // Whether the words at x and y differ.
    pub fn unequal_halves(self, table: &mut [u32], x: u32, y: u32, low: u32, high: u32) -> Writer
        requires { WordsReady self (unequal_span (low + high)) x y (suc (low + high)) }
        ensures { Wrote self table.old (unequal_halves self.wire x y low high) table.new result }
    {
        let n = self.wire;
        let differ = self.differences(table, x, y, low + high + 1);
        differ.any_of_halves(table, n, n + 1, low, high)
    }

    // Whether the words at x and y differ and, if they do, whether x is above y.
    pub fn compare_halves(self, table: &mut [u32], x: u32, y: u32, low: u32, high: u32) -> Writer
        requires { WordsReady self (compare_span (low + high)) x y (suc (low + high)) }
        ensures { Wrote self table.old (compare_halves self.wire x y low high) table.new result }
    {
        let n = self.wire;
        let e = high_unequal_at(n, low, high);
        let differ = self.unequal_halves(table, x, y, low, high);
        differ.above_halves(table, n, x, e, low, high)
    }
}
