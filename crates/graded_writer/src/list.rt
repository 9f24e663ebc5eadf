// Writes the own list of a graded shape.
ghost use Rattle.std.specs.Prelude.{◌≡◌, cond, ◌++◌, ◌+◌, ◌-◌, ◌/◌, T, leb};
ghost use Rattle.gate_words.specs.Writing.{Wrote};
ghost use Rattle.jury.specs.Shape.{graded_limits, ballot_bytes};
ghost use Rattle.graded_circuit.specs.Key.{key_span};
ghost use Rattle.graded_circuit.specs.Merge.{merge};
ghost use Rattle.graded_circuit.specs.OwnList.{candidates_from, key_at, levels_span, levels, other_at, halves_merge};
ghost use Rattle.graded_circuit.specs.OwnList.{low_levels, levels_at, circuit, own_grading};
ghost use Rattle.graded_writer.specs.inner.Ready.{CandidatesReady, KeyAtReady, BestReady, WinnersReady, GroupReady};
ghost use Rattle.graded_writer.specs.inner.Ready.{HalvesReady, LevelsReady, CircuitReady};

use crate::merge::{better, key_span, merge};
use gate_words::writer::Writer;
use gates::kind;
use graded_circuit::plan::Plan;
use graded_sums::key::candidate;
use jury::shape::Shape;

// The circuits of all candidates.
fn candidates(w: Writer, table: &mut [u32], p: Plan) -> Writer
    requires { CandidatesReady w p }
    ensures { Wrote w table.old (candidates_from p w.wire 0 p.candidates) table.new result }
{
    let mut next = w;
    for c in 0..p.candidates {
        next = candidate(next, table, p, c);
    }
    next
}

// The wire at which candidate c's key starts. A candidate's circuit has `span` gates and ends with the key.
fn key_at(p: Plan, span: u32, c: u32) -> u32
    requires { KeyAtReady p span c }
    ensures { result ≡ key_at p c }
{
    p.inputs + (c + 1) * span - key_span(p)
}

// The wire at which the key of the best of `count` candidates from candidate c on starts, if their merges end just
// before wire `end`.
fn best_key(p: Plan, span: u32, c: u32, count: u32, end: u32) -> u32
    requires { BestReady p span c count end }
    ensures { result ≡ cond (leb count 1) (key_at p c) (end - key_span p) }
{
    if count <= 1 {
        return key_at(p, span, c);
    }
    end - key_span(p)
}

// The first of these candidates' wires. A single candidate has none; the answer is then 0, and nothing uses it.
fn winner_flags(p: Plan, count: u32, end: u32) -> u32
    requires { WinnersReady p count end }
    ensures { result ≡ cond (leb count 1) 0 (end - key_span p - count) }
{
    if count <= 1 {
        return 0;
    }
    end - key_span(p) - count
}

// The best of one or two candidates from candidate c on.
fn pair(w: Writer, table: &mut [u32], p: Plan, span: u32, c: u32, count: u32) -> Writer
    requires { GroupReady w (levels_span p 1 count) p span c count 0 2 }
    ensures { Wrote w table.old (levels p 1 w.wire c count) table.new result }
{
    if count <= 1 {
        return w;
    }
    let x = key_at(p, span, c);
    let y = key_at(p, span, c + 1);
    let met = merge(w, table, p, x, y, 0, 0, 1, 1);
    better(met, table, p, met.wire - 7, x, y)
}

// Merges the best of the `first` candidates from candidate c on with the best of the `second` ones after them. Their
// own merges end just before wire `middle`, and just before the writer's wire.
fn halves(
    w: Writer,
    table: &mut [u32],
    p: Plan,
    span: u32,
    c: u32,
    first: u32,
    second: u32,
    middle: u32,
) -> Writer
    requires { HalvesReady w p span c first second middle }
    ensures { Wrote w table.old
        (merge p w.wire (cond (leb first 1) (key_at p c) (middle - key_span p))
        (cond (leb second 1) (key_at p (c + first)) (w.wire - key_span p))
        (cond (leb first 1) 0 (middle - key_span p - first)) (cond (leb second 1) 0 (w.wire - key_span p - second))
        first second) table.new result }
{
    let x = best_key(p, span, c, first, middle);
    let y = best_key(p, span, c + first, second, w.wire);
    let u = winner_flags(p, first, middle);
    let v = winner_flags(p, second, w.wire);
    merge(w, table, p, x, y, u, v, first, second)
}

// The best of two to four candidates from candidate c on.
fn two_to_four(w: Writer, table: &mut [u32], p: Plan, span: u32, c: u32, count: u32) -> Writer
    requires { GroupReady w (levels_span p 2 count) p span c count 1 4 }
    ensures { Wrote w table.old (levels p 2 w.wire c count) table.new result }
{
    let first = count / 2;
    let second = count - first;
    let low = pair(w, table, p, span, c, first);
    let high = pair(low, table, p, span, c + first, second);
    let met = halves(high, table, p, span, c, first, second, low.wire);
    let x = best_key(p, span, c, first, low.wire);
    let y = best_key(p, span, c + first, second, high.wire);
    better(met, table, p, met.wire - count - 5, x, y)
}

// The best of one to four candidates from candidate c on.
fn best_of_four(w: Writer, table: &mut [u32], p: Plan, span: u32, c: u32, count: u32) -> Writer
    requires { GroupReady w (levels_span p 2 count) p span c count 0 4 }
    ensures { Wrote w table.old (levels p 2 w.wire c count) table.new result }
{
    if count <= 1 {
        return w;
    }
    two_to_four(w, table, p, span, c, count)
}

// Three levels of merges, after the circuits of all candidates.
fn all_levels(all: Writer, table: &mut [u32], p: Plan, span: u32) -> Writer
    requires { LevelsReady all p span }
    ensures { Wrote all table.old (levels p low_levels (levels_at p) 0 (p.candidates / 2)
        ++ levels p low_levels (other_at p low_levels (levels_at p) p.candidates) (p.candidates / 2)
        (p.candidates - p.candidates / 2)
        ++ halves_merge p low_levels (levels_at p) 0 p.candidates) table.new result }
{
    let first = p.candidates / 2;
    let second = p.candidates - first;
    let low = best_of_four(all, table, p, span, 0, first);
    let high = best_of_four(low, table, p, span, first, second);
    halves(high, table, p, span, 0, first, second, low.wire)
}

// The circuits of all candidates, then all levels of merges.
fn circuit(w: Writer, table: &mut [u32], p: Plan) -> Writer
    requires { CircuitReady w p }
    ensures { Wrote w table.old (circuit p) table.new result }
{
    let all = candidates(w, table, p);
    let span = (all.wire - p.inputs) / p.candidates;
    all_levels(all, table, p, span)
}

// Writes the own list of a shape from the table's first number on, as far as there is room. The writer that it
// returns has counted all gates and all conditional ones, even if the table is too short.
pub fn own_list(shape: Shape, table: &mut [u32]) -> Writer
    requires { T (graded_limits shape) }
    ensures { Wrote (record { gate = 0; wire = ballot_bytes shape; conditional = 0 }) table.old (own_grading shape)
        table.new result }
{
    let p = Plan::new(shape);
    let w = Writer::new(p.inputs);
    if shape.candidates == 1 {
        return w.emit(table, kind::ONE, 0, 0, 0);
    }
    circuit(w, table, p)
}
