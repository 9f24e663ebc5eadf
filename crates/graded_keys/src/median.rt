// Which of two median grades is worse. Each has a row of flags that say which grades it is worse than. The number of
// ones in this row is the number of the median grade.
ghost use Rattle.std.specs.Prelude.{◌≡◌, ◌+◌};
ghost use Rattle.gate_words.specs.Writing.{Wrote};
ghost use Rattle.graded_circuit.specs.Median.{digit_difference, difference_span, next_digit, later_digits, later_span};
ghost use Rattle.graded_circuit.specs.Median.{compare_ones, ones_span, ones_differ, ones_larger};
ghost use Rattle.graded_keys.specs.inner.Ready.{DigitReady, DigitsReady, EndReady};

use gate_words::choice::chain_end;
use gate_words::writer::Writer;
use gates::kind;

// The lowest digits of two numbers of ones, among `many` wires from x and from y on, a step apart, and whether they
// differ.
fn digit_difference(w: Writer, table: &mut [u32], x: u32, y: u32, step: u32, many: u32) -> Writer
    requires { DigitReady w (difference_span many) x y step many }
    ensures { Wrote w table.old (digit_difference w.wire x y step many) table.new result }
{
    let rest = many - 1;
    let left = chain_end(w.wire, x, rest);
    let first = w.parity(table, x, x + step, step, rest);
    let right = chain_end(first.wire, y, rest);
    let second = first.parity(table, y, y + step, step, rest);
    second.emit(table, kind::XOR, left, right, 0)
}

// Compares one more digit. Wires e and s have the result for the lower digits: whether they differ and, if they do,
// whether the first number is larger.
fn next_digit(
    w: Writer,
    table: &mut [u32],
    x: u32,
    y: u32,
    step: u32,
    many: u32,
    e: u32,
    s: u32,
) -> Writer
    requires { DigitReady w (difference_span many + 2) x y step many }
    ensures { Wrote w table.old (next_digit w.wire x y step many e s) table.new result }
{
    let left = chain_end(w.wire, x, many - 1);
    let differ = digit_difference(w, table, x, y, step, many);
    let q = differ.wire - 1;
    let either = differ.emit(table, kind::OR, e, q, 0);
    either.emit(table, kind::CHOICE, q, left, s)
}

// Compares `digits` more digits. Each takes every second wire of the digit before, from the second on.
fn later_digits(
    w: Writer,
    table: &mut [u32],
    x: u32,
    y: u32,
    stride: u32,
    count: u32,
    e: u32,
    s: u32,
    digits: u32,
) -> Writer
    requires { DigitsReady w (later_span count digits) x y stride count digits }
    ensures { Wrote w table.old (later_digits w.wire x y stride count e s digits) table.new result }
{
    let mut next = w;
    let mut first = x;
    let mut second = y;
    let mut step = stride;
    let mut many = count;
    let mut differ = e;
    let mut larger = s;
    for _ in 0..digits {
        next = next_digit(next, table, first, second, step, many, differ, larger);
        first += step;
        second += step;
        step += step;
        many /= 2;
        differ = next.wire - 2;
        larger = next.wire - 1;
    }
    next
}

// Compares the numbers of ones among `count` wires from x and from y on, a stride apart, in above + 1 digits.
pub fn compare_ones(
    w: Writer,
    table: &mut [u32],
    x: u32,
    y: u32,
    stride: u32,
    count: u32,
    above: u32,
) -> Writer
    requires { DigitsReady w (ones_span count above) x y stride count (above + 1) }
    ensures { Wrote w table.old (compare_ones w.wire x y stride count above) table.new result }
{
    let left = chain_end(w.wire, x, count - 1);
    let differ = digit_difference(w, table, x, y, stride, count);
    later_digits(
        differ,
        table,
        x + stride,
        y + stride,
        stride + stride,
        count / 2,
        differ.wire - 1,
        left,
        above,
    )
}

// The wire that says whether the numbers of ones differ. Their comparison starts at wire n and ends just before wire
// `end`.
pub fn ones_differ(n: u32, end: u32, count: u32, above: u32) -> u32
    requires { EndReady n end count above }
    ensures { result ≡ ones_differ n count above }
{
    if above == 0 {
        return n + (count - 1) + (count - 1);
    }
    end - 2
}

// The wire that says, if they differ, whether the number of ones at x is larger.
pub fn ones_larger(n: u32, end: u32, x: u32, count: u32, above: u32) -> u32
    requires { EndReady n end count above }
    ensures { result ≡ ones_larger n x count above }
{
    if above == 0 {
        return chain_end(n, x, count - 1);
    }
    end - 1
}
