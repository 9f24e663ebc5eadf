// The running sums of one candidate: rows of bits, and the levels of adders that count them. The plan, the rows' first
// wire, candidate and grade are passed one by one, as the definitions of `graded_circuit` take them.
ghost use Rattle.std.specs.Prelude.{◌≡◌, suc, ◌-◌, ◌*◌};
ghost use Rattle.gate_words.specs.Writing.{Wrote};
ghost use Rattle.gate_words.specs.Rows.{xor_rows};
ghost use Rattle.gate_words.specs.Counter.{count_levels};
ghost use Rattle.graded_circuit.specs.Plan.{Planned, bits_at, ballot_stride};
ghost use Rattle.graded_circuit.specs.RunningSums.{sum_size, worst_size, row_at, row_stride, rows, all_levels, worst_levels};
ghost use Rattle.graded_sums.specs.inner.Ready.{GradeOf, RowOf, PartReady, GradeReady, GradesReady};

use gate_adders::counter::count_levels;
use gate_words::writer::Writer;
use graded_circuit::plan::Plan;

// The wire of candidate c's bit of grade g in the first ballot.
#[tactic(auto, using(crate::proofs::Writers::bits_most))]
pub(crate) fn bits_at(p: Plan, c: u32, g: u32) -> u32
    requires { GradeOf p c g }
    ensures { result ≡ bits_at p c g }
{
    c * p.grades + g
}

// How far such bits are apart: the next one is in the next ballot.
fn apart(p: Plan) -> u32
    requires { Planned p }
    ensures { result ≡ ballot_stride p }
{
    p.candidates * p.grades
}

// The first bit that the sum of grade g counts: a bit of the ballots for the best grade, otherwise a bit of a row.
// The rows start at wire n.
pub(crate) fn row_at(p: Plan, n: u32, c: u32, g: u32) -> u32
    requires { RowOf p n c g }
    ensures { result ≡ row_at p n c g }
{
    if g == 0 {
        return bits_at(p, c, 0);
    }
    n + (g - 1) * p.ballots
}

// How far these bits are apart.
fn row_apart(p: Plan, g: u32) -> u32
    requires { Planned p }
    ensures { result ≡ row_stride p g }
{
    if g == 0 {
        return apart(p);
    }
    1
}

// The row after that of grade g: it adds the next grade's bits, modulo 2.
fn next_row(w: Writer, table: &mut [u32], p: Plan, n: u32, c: u32, g: u32) -> Writer
    requires { GradeReady w p n w.wire c g p.ballots }
    ensures { Wrote w table.old
        (xor_rows (row_at p n c g) (row_stride p g) (bits_at p c (suc g)) (ballot_stride p) p.ballots)
        table.new result }
{
    let row = row_at(p, n, c, g);
    let step = row_apart(p, g);
    let bits = bits_at(p, c, g + 1);
    let stride = apart(p);
    w.xor_rows(table, row, step, bits, stride, p.ballots)
}

// The rows of all grades but the best and the two worst.
pub(crate) fn rows(w: Writer, table: &mut [u32], p: Plan, c: u32) -> Writer
    requires { PartReady w p w.wire c ((p.grades - 3) * p.ballots) }
    ensures { Wrote w table.old (rows p w.wire c 0 (p.grades - 3)) table.new result }
{
    let n = w.wire;
    let mut next = w;
    for g in 0..p.grades.saturating_sub(3) {
        next = next_row(next, table, p, n, c, g);
    }
    next
}

// The levels of the sum of grade g.
fn sum_levels(w: Writer, table: &mut [u32], p: Plan, n: u32, c: u32, g: u32) -> Writer
    requires { GradeReady w p n w.wire c g (sum_size p) }
    ensures { Wrote w table.old
        (count_levels w.wire (row_at p n c g) (row_stride p g) p.ballots p.offset p.digits) table.new
        result }
{
    let row = row_at(p, n, c, g);
    let step = row_apart(p, g);
    count_levels(w, table, row, step, p.ballots, p.offset, p.digits)
}

// The levels of the sums of all grades but the two worst. The rows start at wire n.
pub(crate) fn all_levels(w: Writer, table: &mut [u32], p: Plan, n: u32, c: u32) -> Writer
    requires { GradesReady w p n w.wire c ((p.grades - 2) * sum_size p) }
    ensures { Wrote w table.old (all_levels p n w.wire c 0 (p.grades - 2)) table.new result }
{
    let mut next = w;
    for g in 0..p.grades - 2 {
        next = sum_levels(next, table, p, n, c, g);
    }
    next
}

// The levels that count the worst grade's bits.
pub(crate) fn worst_levels(w: Writer, table: &mut [u32], p: Plan, c: u32) -> Writer
    requires { PartReady w p w.wire c (worst_size p) }
    ensures { Wrote w table.old (worst_levels p w.wire c) table.new result }
{
    let bits = bits_at(p, c, p.grades - 1);
    let stride = apart(p);
    count_levels(w, table, bits, stride, p.ballots, p.worst, p.digits)
}
