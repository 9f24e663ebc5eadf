// Compares two keys with equal medians. Words have above + 1 digits, of which the `high` highest are the high half;
// `between` grades lie between the first and the last of a key. Wires are passed one by one, as the definitions of
// `graded_circuit` take them.
ghost use Rattle.std.specs.Prelude.{◌≡◌, ◌∷◌, [], ◌+◌, ◌*◌, ◌≤◌};
ghost use Rattle.gate_words.specs.Gates.{not_of, and_of, or_of, xor_of, mux_of};
ghost use Rattle.gate_words.specs.Halves.{unequal_at, compare_span, above_at};
ghost use Rattle.gate_words.specs.Writing.{Room, Wrote};
ghost use Rattle.graded_circuit.specs.Nearest.{side_span, either_span};
ghost use Rattle.graded_circuit.specs.TieBreak.{nearest, chosen_high, compare_and_reach};
ghost use Rattle.graded_circuit.specs.TieBreak.{left_carry, right_carry, resolve, resolve_span, tie_break, tie_break_span};
ghost use Rattle.graded_contest.specs.inner.Ready.{TieBreakReady, ReachReady, PartReady, ResolveReady};

use gate_adders::reach::reach;
use gate_words::halves::{above_at, unequal_at};
use gate_words::writer::Writer;
use gates::kind;
use graded_keys::nearest::{first_of, last_of, left_end, right_end, sides};

// Chooses the words at the nearest grades, on either side of the median, at which the keys differ.
fn nearest(
    w: Writer,
    table: &mut [u32],
    x: u32,
    y: u32,
    above: u32,
    high: u32,
    between: u32,
) -> Writer
    requires { TieBreakReady w
        (between * side_span above + between * either_span above + between * either_span above) x y above
        high between }
    ensures { Wrote w table.old (nearest w.wire x y above high between) table.new result }
{
    let step = above + 2;
    let left = x + step;
    let right = y + step;
    let far = (between + 1) * step;
    let below = w.wire + (above + 1) + above;
    let sided = sides(w, table, left, right, above, high, between);
    let down = last_of(sided, table, below, left, right, x, y, above, between);
    first_of(
        down,
        table,
        below + 1,
        left,
        right,
        x + far,
        y + far,
        above,
        between,
    )
}

// How many digits of the chosen words are the high half: half of them, if there was a choice.
fn chosen_high(above: u32, high: u32, between: u32) -> u32
    requires { above ≤ 7 }
    ensures { result ≡ chosen_high above high between }
{
    if between == 0 {
        return high;
    }
    (above + 1) / 2
}

// Compares the words at a and c, below the median, and those at u and v, from it on. Then says for each key whether
// its two sums together reach n.
fn compare_and_reach(
    w: Writer,
    table: &mut [u32],
    a: u32,
    c: u32,
    u: u32,
    v: u32,
    bit: u32,
    above: u32,
    high: u32,
) -> Writer
    requires { ReachReady w a c u v above high }
    ensures { Wrote w table.old (compare_and_reach w.wire a c u v bit above high) table.new result }
{
    let low = above - high;
    let down = w.compare_halves(table, a, c, low, high);
    let up = down.compare_halves(table, u, v, low, high);
    let left = reach(up, table, a, u, bit, above);
    reach(left, table, c, v, bit, above)
}

// Whether the lower grade is struck first; `resolve` starts at wire q. Wires j and k are the carries of x and y. Wire
// s says whether x is larger at the lower grade; f and g say whether the median is worse than the first grade, and
// than the last.
fn lower_first(
    w: Writer,
    table: &mut [u32],
    q: u32,
    s: u32,
    j: u32,
    k: u32,
    f: u32,
    g: u32,
) -> Writer
    requires { PartReady w 4 q }
    ensures { Wrote w table.old (mux_of s j k ∷ not_of f ∷ xor_of f g ∷ mux_of (q + 2) q (q + 1)
        ∷ []) table.new result }
{
    let reaches = w.emit(table, kind::CHOICE, s, j, k);
    let worse = reaches.emit(table, kind::NOT, f, 0, 0);
    let apart = worse.emit(table, kind::XOR, f, g, 0);
    apart.emit(table, kind::CHOICE, q + 2, q, q + 1)
}

// Joins the results of both grades: e1 and s1 are those of the lower one, e2 and s2 those of the upper one.
fn both_say(w: Writer, table: &mut [u32], q: u32, e1: u32, s1: u32, e2: u32, s2: u32) -> Writer
    requires { PartReady w 5 q }
    ensures { Wrote w table.old
        (and_of e1 e2 ∷ xor_of e1 e2 ∷ xor_of (q + 5) (q + 4) ∷ mux_of e2 s2 s1 ∷ xor_of s1 s2 ∷ [])
        table.new result }
{
    let both = w.emit(table, kind::AND, e1, e2, 0);
    let one = both.emit(table, kind::XOR, e1, e2, 0);
    let some = one.emit(table, kind::XOR, q + 5, q + 4, 0);
    let upper = some.emit(table, kind::CHOICE, e2, s2, s1);
    upper.emit(table, kind::XOR, s1, s2, 0)
}

// Whether the lower grade overrules the upper one; wire e says whether the medians differ.
fn lower_decides(w: Writer, table: &mut [u32], q: u32, e: u32) -> Writer
    requires { PartReady w 4 q }
    ensures { Wrote w table.old
        (not_of e ∷ and_of (q + 8) (q + 9) ∷ and_of (q + 4) (q + 10) ∷ and_of (q + 11) (q + 3) ∷ [])
        table.new result }
{
    let equal = w.emit(table, kind::NOT, e, 0, 0);
    let against = equal.emit(table, kind::AND, q + 8, q + 9, 0);
    let clash = against.emit(table, kind::AND, q + 4, q + 10, 0);
    clash.emit(table, kind::AND, q + 11, q + 3, 0)
}

// Whether the keys differ and, if they do, whether x comes first.
fn answer(w: Writer, table: &mut [u32], q: u32, e: u32, s: u32) -> Writer
    requires { PartReady w 3 q }
    ensures { Wrote w table.old (mux_of e s (q + 7) ∷ or_of e (q + 6) ∷ xor_of (q + 13) (q + 12)
        ∷ []) table.new result }
{
    let upper = w.emit(table, kind::CHOICE, e, s, q + 7);
    let differ = upper.emit(table, kind::OR, e, q + 6, 0);
    differ.emit(table, kind::XOR, q + 13, q + 12, 0)
}

// Which comparison decides: that of the medians, with the result at wires e and s, of the lower grade, or of the
// upper one. The other wires are explained at the parts above.
fn resolve(
    w: Writer,
    table: &mut [u32],
    e: u32,
    s: u32,
    e1: u32,
    s1: u32,
    e2: u32,
    s2: u32,
    j: u32,
    k: u32,
    f: u32,
    g: u32,
) -> Writer
    requires { Room w resolve_span }
    ensures { Wrote w table.old (resolve w.wire e s e1 s1 e2 s2 j k f g) table.new result }
{
    let q = w.wire;
    let first = lower_first(w, table, q, s1, j, k, f, g);
    let outcome = both_say(first, table, q, e1, s1, e2, s2);
    let lower = lower_decides(outcome, table, q, e);
    answer(lower, table, q, e, s)
}

// Resolves the comparisons and carries from wire m on. The first key's chosen words are at a and u; `span` is the
// number of gates of one comparison.
fn resolve_at(
    w: Writer,
    table: &mut [u32],
    m: u32,
    a: u32,
    u: u32,
    e: u32,
    s: u32,
    f: u32,
    g: u32,
    above: u32,
    span: u32,
) -> Writer
    requires { ResolveReady w m above span }
    ensures { Wrote w table.old
        (resolve w.wire e s (unequal_at m above) (above_at m a above) (unequal_at (m + compare_span above) above)
        (above_at (m + compare_span above) u above) (left_carry m above) (right_carry m above) f g) table.new
        result }
{
    let up = m + span;
    let e1 = unequal_at(m, above);
    let s1 = above_at(m, a, above);
    let e2 = unequal_at(up, above);
    let s2 = above_at(up, u, above);
    let sums = up + span;
    let right = w.wire - 1;
    let left = sums + (w.wire - sums) / 2 - 1;
    resolve(w, table, e, s, e1, s1, e2, s2, left, right, f, g)
}

// The whole comparison of the keys at x and y. Wires e and s compare the medians; `bit` is 1 if the number of ballots
// is odd.
pub(crate) fn tie_break(
    w: Writer,
    table: &mut [u32],
    bit: u32,
    x: u32,
    y: u32,
    e: u32,
    s: u32,
    above: u32,
    high: u32,
    between: u32,
) -> Writer
    requires { TieBreakReady w (tie_break_span above between) x y above high between }
    ensures { Wrote w table.old (tie_break bit w.wire x y e s above high between) table.new result }
{
    let down = w.wire + between * (2 * above + 3);
    let up = down + between * (2 * above + 2);
    let far = (between + 1) * (above + 2);
    let a = left_end(down, x, above, between);
    let c = right_end(down, y, above, between);
    let u = left_end(up, x + far, above, between);
    let v = right_end(up, y + far, above, between);
    let cut = chosen_high(above, high, between);
    let chosen = nearest(w, table, x, y, above, high, between);
    let compared = compare_and_reach(chosen, table, a, c, u, v, bit, above, cut);
    resolve_at(
        compared,
        table,
        chosen.wire,
        a,
        u,
        e,
        s,
        x + above + 1,
        x + far + above + 1,
        above,
        3 * above + 1,
    )
}
