// Who is beaten, and the output gates. The kept wires and k are passed apart, as `kept_of` takes them.
ghost use Rattle.std.specs.Prelude.{◌≡◌, suc, ◌-◌, ◌<◌};
ghost use Rattle.gate_words.specs.Writing.{Wrote};
ghost use Rattle.ranked_circuit.specs.RankedList as spec;
ghost use Rattle.ranked_blocks.specs.Ranked.{kept_of};
ghost use Rattle.ranked_writer.specs.inner.Losers.{JoinedReady, RowReady, RowsReady, OutputsReady};

use gate_words::writer::Writer;
use gates::kind;
use ranked_blocks::kept::kept;

// Number s, counted from 0, of the candidates other than i.
fn other(i: u32, s: u32) -> u32
    requires { s < 8 }
    ensures { result ≡ spec.other i s }
{
    if s < i { s } else { s + 1 }
}

// Operand s of candidate i's row of gates, which starts at wire `at`.
fn joined(beats: &[u32], k: u32, at: u32, i: u32, s: u32) -> u32
    requires { JoinedReady beats.now k at i s }
    ensures { result ≡ spec.joined_wire (kept_of beats.now k) (suc (k - 2)) at i s }
{
    if s < k - 1 {
        let one = other(i, s);
        return kept(beats, k, one, i);
    }
    at + (s - (k - 1))
}

// Whether one of the others beats i: gate t joins operands 2 t and 2 t + 1.
fn loser_row(w: Writer, table: &mut [u32], beats: &[u32], k: u32, i: u32) -> Writer
    requires { RowReady w beats.now k i }
    ensures { Wrote w table.old (spec.loser_row (kept_of beats.now k) (k - 2) w.wire i)
        table.new result }
{
    let at = w.wire;
    let mut next = w;
    for t in 0..k - 2 {
        let a = joined(beats, k, at, i, 2 * t);
        let b = joined(beats, k, at, i, 2 * t + 1);
        next = next.emit(table, kind::OR, a, b, 0);
    }
    next
}

// A row for each candidate.
pub(crate) fn loser_rows(w: Writer, table: &mut [u32], beats: &[u32], k: u32) -> Writer
    requires { RowsReady w beats.now k }
    ensures { Wrote w table.old (spec.loser_rows (kept_of beats.now k) (k - 2) w.wire k)
        table.new result }
{
    let mut next = w;
    for i in 0..k {
        next = loser_row(next, table, beats, k, i);
    }
    next
}

// The output gates: who is not beaten. The rows start at wire `rows`.
pub(crate) fn output_gates(w: Writer, table: &mut [u32], beats: &[u32], k: u32, rows: u32) -> Writer
    requires { OutputsReady w beats.now k rows }
    ensures { Wrote w table.old (spec.output_gates (kept_of beats.now k) (k - 2) rows k)
        table.new result }
{
    let mut next = w;
    for i in 0..k {
        let lost = joined(beats, k, rows + i * (k - 2), i, 2 * (k - 2));
        next = next.emit(table, kind::NOT, lost, 0, 0);
    }
    next
}
