// The key of one candidate, and its whole circuit.
ghost use Rattle.std.specs.Prelude.{◌-◌};
ghost use Rattle.gate_words.specs.Writing.{Wrote};
ghost use Rattle.gate_words.specs.Counter.{count_digits_as};
ghost use Rattle.graded_circuit.specs.RunningSums.{row_at};
ghost use Rattle.graded_circuit.specs.Key.{key_words, worst_word, candidate, candidate_span};
ghost use Rattle.graded_sums.specs.inner.Ready.{PartReady, WordReady, WordsReady, WorstReady};

use crate::sums::{all_levels, bits_at, row_at, rows, worst_levels};
use gate_adders::counter::{count_digits, count_size};
use gate_words::writer::Writer;
use gates::kind;
use graded_circuit::plan::Plan;

// The key's word of grade g, whose levels start at wire `base`. The rows of candidate c start at wire n.
fn key_word(w: Writer, table: &mut [u32], p: Plan, n: u32, base: u32, c: u32, g: u32) -> Writer
    requires { WordReady w p n base c g }
    ensures { Wrote w table.old
        (count_digits_as 2 3 base (row_at p n c g) p.ballots p.offset p.digits) table.new result }
{
    let row = row_at(p, n, c, g);
    count_digits(
        w,
        table,
        kind::COPY,
        kind::NOT,
        base,
        row,
        p.ballots,
        p.offset,
        p.digits,
    )
}

// The key's words of all grades but the two worst. The levels of the best grade start at wire m.
fn key_words(w: Writer, table: &mut [u32], p: Plan, n: u32, m: u32, c: u32) -> Writer
    requires { WordsReady w p n m c }
    ensures { Wrote w table.old (key_words p n m c 0 (p.grades - 2)) table.new result }
{
    let size = count_size(p.ballots, p.offset, p.digits);
    let mut next = w;
    let mut base = m;
    for g in 0..p.grades - 2 {
        next = key_word(next, table, p, n, base, c, g);
        base += size;
    }
    next
}

// The key's word of the second worst grade: the worst grade's count, whose levels start at wire `base`, complemented.
fn worst_word(w: Writer, table: &mut [u32], p: Plan, base: u32, c: u32) -> Writer
    requires { WorstReady w p base c }
    ensures { Wrote w table.old (worst_word p base c) table.new result }
{
    let bits = bits_at(p, c, p.grades - 1);
    count_digits(
        w,
        table,
        kind::NOT,
        kind::COPY,
        base,
        bits,
        p.ballots,
        p.worst,
        p.digits,
    )
}

// The circuit of candidate c: the rows, the levels of all sums, then the key.
pub fn candidate(w: Writer, table: &mut [u32], p: Plan, c: u32) -> Writer
    requires { PartReady w p w.wire c (candidate_span p) }
    ensures { Wrote w table.old (candidate p w.wire c) table.new result }
{
    let n = w.wire;
    let rowed = rows(w, table, p, c);
    let counted = all_levels(rowed, table, p, n, c);
    let worst = worst_levels(counted, table, p, c);
    let words = key_words(worst, table, p, n, rowed.wire, c);
    worst_word(words, table, p, counted.wire, c)
}
