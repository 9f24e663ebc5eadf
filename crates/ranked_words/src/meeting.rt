// The meeting of two candidates, neither of whom is the last.
ghost use Rattle.std.specs.Prelude.{[], ◌∷◌, ◌+◌, ◌-◌};
ghost use Rattle.gate_words.specs.Gates.{and_of, mux_of};
ghost use Rattle.gate_words.specs.Writing.{Wrote};
ghost use Rattle.ranked_circuit.specs.Contests as spec;
ghost use Rattle.ranked_words.specs.inner.Meeting.{Deciding, Meeting};

use crate::blocks::{compare, strictly};
use gate_words::writer::Writer;
use gates::kind;

// Who beats whom, after four comparisons. The first three end just before the wires a, b and s, the fourth just
// before the writer's. Wires mi and mj say whether i and j beat the last candidate.
fn decide(w: Writer, table: &mut [u32], a: u32, b: u32, s: u32, mi: u32, mj: u32) -> Writer
    requires { Deciding w a b s }
    ensures { Wrote w table.old (and_of (b - 2) (s - 1) ∷ and_of (b - 1) (w.wire - 1) ∷ mux_of (a - 1) mi w.wire
        ∷ mux_of (a - 2) mj (w.wire + 1) ∷ []) table.new result }
{
    let n = w.wire;
    let forth = w.emit(table, kind::AND, b - 2, s - 1, 0);
    let back = forth.emit(table, kind::AND, b - 1, n - 1, 0);
    let up = back.emit(table, kind::CHOICE, a - 1, mi, n);
    up.emit(table, kind::CHOICE, a - 2, mj, n + 1)
}

// The meeting of i and j. The words li and lj are the last candidate's paths to i and to j, ij and ji the paths
// between i and j. Wires mi and mj say whether i and j beat the last candidate.
pub fn meeting(
    w: Writer,
    table: &mut [u32],
    li: u32,
    lj: u32,
    ij: u32,
    ji: u32,
    mi: u32,
    mj: u32,
    digits: u32,
) -> Writer
    requires { Meeting w li lj ij ji digits }
    ensures { Wrote w table.old (spec.meeting li lj ij ji mi mj digits w.wire) table.new result }
{
    let first = compare(w, table, li, lj, digits);
    let second = compare(first, table, ij, ji, digits);
    let third = strictly(second, table, ij, lj, digits);
    let fourth = strictly(third, table, ji, li, digits);
    decide(fourth, table, first.wire, second.wire, third.wire, mi, mj)
}
