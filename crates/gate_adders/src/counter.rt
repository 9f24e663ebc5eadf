// Counting bits, by levels of adders. What is counted is three numbers, as in the definitions: how many bits, the
// public number `extra`, and the levels. A struct would be built of a plan's three fields at each call.
ghost use Rattle.std.specs.Prelude.{◌+◌, ◌*◌, ◌<◌, ◌≡◌, length};
ghost use Rattle.gate_words.specs.Limits.{writer_limit};
ghost use Rattle.gate_words.specs.Writing.{Wrote};
ghost use Rattle.gate_words.specs.Counter.{level, adders, level_sum, count_levels, count_digits_as, counter, count_size};
ghost use Rattle.gate_words.specs.inner.Counts.{LevelReady, CountReady, CountDigitsReady, CountSizeReady};

use crate::adder::{full_adder, half_adder, increment};
use gate_words::writer::Writer;
use gates::kind;

// The number of adders in a level that adds `count` bits and the public bit e to a sum.
pub(crate) fn adders_of(count: u32, e: u32) -> u32
    requires { (count < writer_limit) × (e < 2) }
    ensures { result ≡ adders count e }
{
    (count + e + 1) / 2
}

// The wire of a level's sum: the last adder's, or s itself if there is no adder.
fn level_sum(n: u32, s: u32, count: u32, e: u32) -> u32
    requires { (n + 3 * adders count e < writer_limit) × (count < writer_limit) × (e < 2) }
    ensures { result ≡ level_sum n s count e }
{
    let adders = adders_of(count, e);
    if adders == 0 { s } else { n + 3 * adders - 2 }
}

// The number of gates of a counter's levels: three for each carry. The carries of a level are the bits of the next.
pub fn count_size(count: u32, extra: u32, levels: u32) -> u32
    requires { CountSizeReady count extra levels }
    ensures { result ≡ count_size count extra levels }
{
    let mut gates: u32 = 0;
    let mut carries = count;
    let mut rest = extra;
    for _ in 0..levels {
        carries = (carries + rest % 2) / 2;
        gates += 3 * carries;
        rest /= 2;
    }
    gates
}

// One level: adds to wire `sum` the `count` bits from `first` on, a stride apart, and the public bit e.
pub(crate) fn level(
    start: Writer,
    table: &mut [u32],
    sum: u32,
    first: u32,
    stride: u32,
    e: u32,
    count: u32,
) -> Writer
    requires { LevelReady start (length (level start.wire sum first stride e count)) first stride count }
    ensures { Wrote start table.old (level start.wire sum first stride e count) table.new result }
{
    let mut w = start;
    let mut s = sum;
    let mut at = first;
    for _ in 0..count / 2 {
        let n = w.wire;
        w = full_adder(w, table, s, at, at + stride);
        s = n + 1;
        at = at + stride + stride;
    }
    if count % 2 == 1 {
        return half_adder(w, table, s, at, e);
    }
    if e == 0 {
        return w;
    }
    increment(w, table, s)
}

// The levels that count `count` bits, a stride apart, and the public number `extra`.
pub fn count_levels(
    start: Writer,
    table: &mut [u32],
    first: u32,
    stride: u32,
    count: u32,
    extra: u32,
    levels: u32,
) -> Writer
    requires { CountReady start (count_size count extra levels) first stride count extra levels }
    ensures { Wrote start table.old (count_levels start.wire first stride count extra levels) table.new
        result }
{
    let mut w = start;
    let mut at = first;
    let mut d = stride;
    let mut m = count;
    let mut rest = extra;
    for _ in 0..levels {
        let n = w.wire;
        w = level(w, table, at, at + d, d, rest % 2, m - 1);
        at = n + 2;
        d = 3;
        m = adders_of(m - 1, rest % 2);
        rest /= 2;
    }
    w
}

// The digits of a count whose levels start at wire `base`: gates of kind `low` and, for the top digit, of kind
// `top`.
pub fn count_digits(
    start: Writer,
    table: &mut [u32],
    low: u32,
    top: u32,
    base: u32,
    first: u32,
    count: u32,
    extra: u32,
    levels: u32,
) -> Writer
    requires { CountDigitsReady start low top base count extra levels }
    ensures { Wrote start table.old (count_digits_as low top base first count extra levels) table.new result }
{
    let mut w = start;
    let mut n = base;
    let mut at = first;
    let mut m = count;
    let mut rest = extra;
    for _ in 0..levels {
        w = w.emit(table, low, level_sum(n, at, m - 1, rest % 2), 0, 0);
        at = n + 2;
        m = adders_of(m - 1, rest % 2);
        n += 3 * m;
        rest /= 2;
    }
    w.emit(table, top, at, 0, 0)
}

// Counts `count` bits, a stride apart, and the public number `extra`. The last levels + 1 gates are the digits.
pub fn counter(
    start: Writer,
    table: &mut [u32],
    first: u32,
    stride: u32,
    count: u32,
    extra: u32,
    levels: u32,
) -> Writer
    requires { CountReady start (count_size count extra levels + (levels + 1)) first stride count extra levels }
    ensures { Wrote start table.old (counter start.wire first stride count extra levels) table.new result }
{
    let base = start.wire;
    let w = count_levels(start, table, first, stride, count, extra, levels);
    count_digits(
        w,
        table,
        kind::COPY,
        kind::COPY,
        base,
        first,
        count,
        extra,
        levels,
    )
}
