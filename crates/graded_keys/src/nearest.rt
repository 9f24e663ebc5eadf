// Chooses the words of two keys at the grades nearest to the median at which they differ. A word has above + 1
// digits. Words are passed by their first wires, one by one, as the definitions of `graded_circuit` take them.
ghost use Rattle.std.specs.Prelude.{◌≡◌, ◌+◌, ◌*◌, ◌≤◌, ◌<◌};
ghost use Rattle.gate_words.specs.Limits.{writer_limit};
ghost use Rattle.gate_words.specs.Writing.{Wrote};
ghost use Rattle.graded_circuit.specs.Nearest.{side_flags, sides, either, either_span, last_words, first_words};
ghost use Rattle.graded_circuit.specs.Nearest.{left_end, right_end};
ghost use Rattle.graded_keys.specs.inner.Nearest.{SideReady, SidesReady, EitherReady, LastReady, FirstReady};

use gate_words::halves::unequal_at;
use gate_words::writer::Writer;
use gates::kind;

// Two flags for one grade: the words differ and the grade is below the median; they differ and it is not. The `high`
// highest digits of a word are the high half.
fn side_flags(w: Writer, table: &mut [u32], x: u32, y: u32, above: u32, high: u32) -> Writer
    requires { SideReady w x y above high }
    ensures { Wrote w table.old (side_flags w.wire x y above high) table.new result }
{
    let differ = unequal_at(w.wire, above);
    let compared = w.unequal_halves(table, x, y, above - high, high);
    let below = compared.emit(table, kind::AND, differ, x + above + 1, 0);
    below.emit(table, kind::XOR, differ, compared.wire, 0)
}

// The flags of `count` grades. The words of the first one are at x and y.
pub fn sides(
    w: Writer,
    table: &mut [u32],
    x: u32,
    y: u32,
    above: u32,
    high: u32,
    count: u32,
) -> Writer
    requires { SidesReady w x y above high count }
    ensures { Wrote w table.old (sides w.wire x y above high count) table.new result }
{
    let mut next = w;
    let mut left = x;
    let mut right = y;
    for _ in 0..count {
        next = side_flags(next, table, left, right, above, high);
        left += above + 2;
        right += above + 2;
    }
    next
}

// The words at x and y if wire f is 1, else those at u and v.
fn either(
    w: Writer,
    table: &mut [u32],
    f: u32,
    x: u32,
    y: u32,
    u: u32,
    v: u32,
    above: u32,
) -> Writer
    requires { EitherReady w x y u v above }
    ensures { Wrote w table.old (either f x y u v above) table.new result }
{
    let left = w.choose(table, f, x, u, above + 1);
    left.choose(table, f, y, v, above + 1)
}

// The words of the last of `count` grades whose flag is 1, or those at u and v if there is none. The first grade's
// flag is wire f, and its words are at x and y.
pub fn last_of(
    w: Writer,
    table: &mut [u32],
    f: u32,
    x: u32,
    y: u32,
    u: u32,
    v: u32,
    above: u32,
    count: u32,
) -> Writer
    requires { LastReady w f x y u v above count }
    ensures { Wrote w table.old (last_words w.wire f x y u v above count) table.new result }
{
    let mut next = w;
    let mut flag = f;
    let mut left = x;
    let mut right = y;
    let mut first = u;
    let mut second = v;
    for _ in 0..count {
        let n = next.wire;
        next = either(next, table, flag, left, right, first, second, above);
        flag += 2 * above + 3;
        left += above + 2;
        right += above + 2;
        first = n;
        second = n + above + 1;
    }
    next
}

// The words of the first such grade: the grades are visited from the last to the first. It stays apart from `last_of`,
// since it goes the other way and has its own definition.
pub fn first_of(
    w: Writer,
    table: &mut [u32],
    f: u32,
    x: u32,
    y: u32,
    u: u32,
    v: u32,
    above: u32,
    count: u32,
) -> Writer
    requires { FirstReady w f x y u v above count }
    ensures { Wrote w table.old (first_words w.wire f x y u v above count) table.new result }
{
    let mut next = w;
    let mut first = u;
    let mut second = v;
    for i in (0..count).rev() {
        let n = next.wire;
        let step = i * (above + 2);
        next = either(
            next,
            table,
            f + i * (2 * above + 3),
            x + step,
            y + step,
            first,
            second,
            above,
        );
        first = n;
        second = n + above + 1;
    }
    next
}

// The wire at which the chosen word of the first key starts; u itself if there is no grade to choose from.
pub fn left_end(n: u32, u: u32, above: u32, count: u32) -> u32
    requires { (n + count * either_span above < writer_limit) × (above ≤ 7) × (count ≤ 6) }
    ensures { result ≡ left_end n u above count }
{
    if count == 0 {
        return u;
    }
    n + (count - 1) * (2 * above + 2)
}

// The same for the second key, with v. It does not call `left_end`, which would ask for room for this word too.
pub fn right_end(n: u32, v: u32, above: u32, count: u32) -> u32
    requires { (n + count * either_span above < writer_limit) × (above ≤ 7) × (count ≤ 6) }
    ensures { result ≡ right_end n v above count }
{
    if count == 0 {
        return v;
    }
    n + (count - 1) * (2 * above + 2) + above + 1
}
