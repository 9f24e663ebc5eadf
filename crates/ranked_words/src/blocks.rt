// Comparing two words, and choosing the smaller or the larger one. A word has a lowest digit and `digits` more.
ghost use Rattle.std.specs.Prelude.{◌++◌, suc, ◌+◌, ◌*◌};
ghost use Rattle.gate_words.specs.Writing.{Wrote};
ghost use Rattle.gate_words.specs.inner.Ready.{WordsReady};
ghost use Rattle.gate_words.specs.Choice.{choose};
ghost use Rattle.ranked_circuit.specs.Blocks.{compare, strictly, order, order_cut, order_size, cut_end};
ghost use Rattle.ranked_circuit.specs.Blocks.{smaller, larger, larger_if};
ghost use Rattle.ranked_words.specs.inner.Orders.{CutReady, OneReady, WayReady};

use gate_words::choice::chain_end;
use gate_words::halves::{above_at, unequal_at};
use gate_words::writer::Writer;
use gates::kind;

// Compares two words both ways. The last wire but one says whether the word at x is above, the last whether it is
// below.
pub fn compare(w: Writer, table: &mut [u32], x: u32, y: u32, digits: u32) -> Writer
    requires { WordsReady w (3 + 3 * digits) x y (suc digits) }
    ensures { Wrote w table.old (compare w.wire x y digits) table.new result }
{
    let n = w.wire;
    let first = w.first_digit(table, x, y);
    first.compare_words(table, x + 1, y + 1, n + 1, n + 2, digits)
}

// Whether the word at x is above the word at y. The last wire says so.
pub fn strictly(w: Writer, table: &mut [u32], x: u32, y: u32, digits: u32) -> Writer
    requires { WordsReady w (2 + 2 * digits) x y (suc digits) }
    ensures { Wrote w table.old (strictly w.wire x y digits) table.new result }
{
    let n = w.wire;
    let lowest = w.emit(table, kind::XOR, x, y, 0);
    let first = lowest.emit(table, kind::AND, x, n, 0);
    let differ = first.differences(table, x + 1, y + 1, digits);
    differ.above(table, n + 2, x + 1, n + 1, digits)
}

// Which of the words at x and y is larger. If they are equal, either answer will do.
fn order(w: Writer, table: &mut [u32], x: u32, y: u32, digits: u32) -> Writer
    requires { WordsReady w (2 * digits) x y (suc digits) }
    ensures { Wrote w table.old (order w.wire x y digits) table.new result }
{
    let n = w.wire;
    let differ = w.differences(table, x + 1, y + 1, digits);
    differ.above(table, n, x + 1, x, digits)
}

// The same in fewer rounds: the `cut` highest digits are compared at the same time as the others.
fn order_cut(w: Writer, table: &mut [u32], x: u32, y: u32, digits: u32, cut: u32) -> Writer
    requires { CutReady w (order_size digits cut) x y digits cut }
    ensures { Wrote w table.old (order_cut w.wire x y digits cut) table.new result }
{
    if cut == 0 {
        return order(w, table, x, y, digits);
    }
    let low = digits - cut;
    let end = chain_end(w.wire + low, x, low);
    let told = order(w, table, x, y, low);
    let n = told.wire;
    let high = x + low + 1;
    let differ = unequal_at(n, cut - 1);
    let over = above_at(n, high, cut - 1);
    let compared = told.compare_halves(table, high, y + low + 1, cut - 1, 0);
    compared.emit(table, kind::CHOICE, differ, over, end)
}

// The word at `more` if the word at x is larger than the word at y, the word at `less` if it is smaller. If the two
// are equal, either may be chosen.
fn one_of(
    w: Writer,
    table: &mut [u32],
    x: u32,
    y: u32,
    more: u32,
    less: u32,
    digits: u32,
    cut: u32,
) -> Writer
    requires { OneReady w x y more less digits cut }
    ensures { Wrote w table.old (order_cut w.wire x y digits cut ++ choose (cut_end w.wire x digits cut) more
        less (suc digits)) table.new result }
{
    let n = w.wire;
    let told = order_cut(w, table, x, y, digits, cut);
    let end = chain_end(n, x, told.wire - n);
    told.choose(table, end, more, less, digits + 1)
}

// The larger of the words at x and y if wire f is 1, otherwise the word at y.
fn larger_if(w: Writer, table: &mut [u32], f: u32, x: u32, y: u32, digits: u32, cut: u32) -> Writer
    requires { CutReady w (order_size digits cut + 1 + suc digits) x y digits cut }
    ensures { Wrote w table.old (larger_if w.wire f x y digits cut) table.new result }
{
    let n = w.wire;
    let told = order_cut(w, table, x, y, digits, cut);
    let end = chain_end(n, x, told.wire - n);
    let both = told.emit(table, kind::AND, f, end, 0);
    both.choose(table, told.wire, x, y, digits + 1)
}

// The stronger of a link and a way. The link is the word at v, and counts only if wire f is 1. The way is as strong
// as the weaker of its two parts, the words at x and y.
pub fn link_or_way(
    w: Writer,
    table: &mut [u32],
    f: u32,
    v: u32,
    x: u32,
    y: u32,
    digits: u32,
    cut: u32,
) -> Writer
    requires { WayReady w (order_size digits cut + 1 + suc digits) v x y digits cut }
    ensures { Wrote w table.old (smaller w.wire x y digits cut
        ++ larger_if (w.wire + order_size digits cut + suc digits) f v (w.wire + order_size digits cut) digits cut)
        table.new result }
{
    let weaker = one_of(w, table, x, y, y, x, digits, cut);
    larger_if(weaker, table, f, v, weaker.wire - digits - 1, digits, cut)
}

// The stronger of the path so far, the word at v, and a way, which is as strong as the weaker of its parts at x and
// y.
pub fn path_or_way(
    w: Writer,
    table: &mut [u32],
    v: u32,
    x: u32,
    y: u32,
    digits: u32,
    cut: u32,
) -> Writer
    requires { WayReady w (order_size digits cut + suc digits) v x y digits cut }
    ensures { Wrote w table.old (smaller w.wire x y digits cut
        ++ larger (w.wire + order_size digits cut + suc digits) v (w.wire + order_size digits cut) digits cut)
        table.new result }
{
    let weaker = one_of(w, table, x, y, y, x, digits, cut);
    let way = weaker.wire - digits - 1;
    one_of(weaker, table, v, way, v, way, digits, cut)
}
