// The contest of two keys.
ghost use Rattle.std.specs.Prelude.{◌∷◌, ◌++◌, [], ◌+◌, ◌-◌};
ghost use Rattle.gate_words.specs.Gates.{copy_of, or_of, mux_of};
ghost use Rattle.gate_words.specs.Halves.{unequal_at, compare_cut, above_at};
ghost use Rattle.gate_words.specs.Writing.{Room, Wrote};
ghost use Rattle.graded_circuit.specs.RunningSums.{word_span};
ghost use Rattle.graded_circuit.specs.Median.{compare_ones};
ghost use Rattle.graded_circuit.specs.Contest.{tie_break_below, tie_break_below_span, contest, contest_span};
ghost use Rattle.graded_contest.specs.inner.Ready.{KeysReady, MediansReady, SumReady};

use crate::tie_break::tie_break;
use gate_words::halves::{above_at, unequal_at};
use gate_words::writer::Writer;
use gates::kind;
use graded_circuit::plan::Plan;
use graded_keys::median::{compare_ones, ones_differ, ones_larger};

// The result of the medians, copied. Without low digits nothing else decides.
fn medians_alone(w: Writer, table: &mut [u32], e: u32, s: u32) -> Writer
    requires { Room w 2 }
    ensures { Wrote w table.old (copy_of e ∷ copy_of s ∷ []) table.new result }
{
    let differ = w.emit(table, kind::COPY, e, 0, 0);
    differ.emit(table, kind::COPY, s, 0, 0)
}

// Which key comes first by a single sum, of above + 1 digits, if the medians are equal. Wires e and s have the result
// of the medians.
fn one_sum(
    w: Writer,
    table: &mut [u32],
    x: u32,
    y: u32,
    e: u32,
    s: u32,
    above: u32,
    high: u32,
) -> Writer
    requires { SumReady w x y above high }
    ensures { Wrote w table.old (compare_cut w.wire x y above high
        ++ (or_of e (unequal_at w.wire above) ∷ mux_of e s (above_at w.wire x above) ∷ [])) table.new result }
{
    let differ = unequal_at(w.wire, above);
    let first = above_at(w.wire, x, above);
    let compared = w.compare_halves(table, x, y, above - high, high);
    let either = compared.emit(table, kind::OR, e, differ, 0);
    either.emit(table, kind::CHOICE, e, s, first)
}

// Which of the keys at x and y comes first. Wires e and s have the result of the medians; if they are equal, the sums
// decide.
fn tie_break_below(
    w: Writer,
    table: &mut [u32],
    p: Plan,
    x: u32,
    y: u32,
    e: u32,
    s: u32,
    high: u32,
) -> Writer
    requires { KeysReady w (tie_break_below_span p.digits (p.grades - 2) + 2) p x y high }
    ensures { Wrote w table.old (tie_break_below p w.wire x y e s p.digits high (p.grades - 2))
        table.new result }
{
    let digits = p.digits;
    let grades = p.grades;
    let bit = p.ballots % 2;
    if digits == 0 {
        return medians_alone(w, table, e, s);
    }
    let above = digits - 1;
    if grades == 2 {
        return one_sum(w, table, x, y, e, s, above, high);
    }
    tie_break(w, table, bit, x, y, e, s, above, high, grades - 3)
}

// Compares the medians of the keys at x and y, y's first, because a larger number is a worse grade.
fn compare_medians(w: Writer, table: &mut [u32], p: Plan, x: u32, y: u32) -> Writer
    requires { MediansReady w p x y }
    ensures { Wrote w table.old (compare_ones w.wire (y + p.digits) (x + p.digits) (word_span p) (p.grades - 1)
        p.places) table.new result }
{
    compare_ones(
        w,
        table,
        y + p.digits,
        x + p.digits,
        p.digits + 1,
        p.grades - 1,
        p.places,
    )
}

// The contest of the keys at x and y. The `high` highest digits of their words are the high half.
pub fn contest(w: Writer, table: &mut [u32], p: Plan, x: u32, y: u32, high: u32) -> Writer
    requires { KeysReady w (contest_span p) p x y high }
    ensures { Wrote w table.old (contest p w.wire x y high) table.new result }
{
    let compared = compare_medians(w, table, p, x, y);
    let e = ones_differ(w.wire, compared.wire, p.grades - 1, p.places);
    let s = ones_larger(w.wire, compared.wire, y + p.digits, p.grades - 1, p.places);
    tie_break_below(compared, table, p, x, y, e, s, high)
}
