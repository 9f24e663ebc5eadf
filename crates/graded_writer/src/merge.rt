// Merges two groups of candidates.
ghost use Rattle.std.specs.Prelude.{◌≡◌, ◌+◌};
ghost use Rattle.gate_words.specs.Writing.{Wrote};
ghost use Rattle.graded_circuit.specs.Plan.{Planned};
ghost use Rattle.graded_circuit.specs.Key.{key_span};
ghost use Rattle.gate_words.specs.Choice.{choose};
ghost use Rattle.graded_circuit.specs.Merge.{and_all, keep_winners, select_flags, high_digits, merge};
ghost use Rattle.gate_words.specs.inner.Ready.{WordReady};
ghost use Rattle.graded_writer.specs.inner.Ready.{KeepReady, SelectReady, MergeReady, BetterReady};

use gate_words::writer::Writer;
use gates::kind;
use graded_circuit::plan::Plan;
use graded_contest::contest::contest;

// Each of `count` wires from `at` on, joined with wire `stays` by "and".
fn and_all(w: Writer, table: &mut [u32], at: u32, stays: u32, count: u32) -> Writer
    requires { WordReady w count at count }
    ensures { Wrote w table.old (and_all at stays count) table.new result }
{
    let mut next = w;
    for i in 0..count {
        next = next.emit(table, kind::AND, at + i, stays, 0);
    }
    next
}

// The wires of a group's `count` candidates after a merge. Before it they start at `at`; a single candidate has none.
// Wire `stays` says whether the group's best still is the best.
fn keep_winners(w: Writer, table: &mut [u32], at: u32, stays: u32, count: u32) -> Writer
    requires { KeepReady w at count }
    ensures { Wrote w table.old (keep_winners at stays count) table.new result }
{
    if count == 1 {
        return w.emit(table, kind::COPY, stays, 0, 0);
    }
    and_all(w, table, at, stays, count)
}

// Which group is better, and which group stays, after a contest with its result at wires q and q + 1.
fn select_flags(w: Writer, table: &mut [u32], q: u32) -> Writer
    requires { SelectReady w q }
    ensures { Wrote w table.old (select_flags q) table.new result }
{
    let first = w.emit(table, kind::AND, q, q + 1, 0);
    let right = first.emit(table, kind::NOT, q + 2, 0, 0);
    right.emit(table, kind::XOR, q, q + 3, 0)
}

// How many digits of the keys' words are the high half, if two groups of `both` candidates together are merged: half
// of them, if one of the keys was chosen.
fn high_digits(p: Plan, both: u32) -> u32
    ensures { result ≡ high_digits p both }
{
    if both <= 2 {
        return 0;
    }
    p.digits / 2
}

// The merge of groups of l and m candidates, with keys at x and y, whose wires start at u and v.
pub(crate) fn merge(
    w: Writer,
    table: &mut [u32],
    p: Plan,
    x: u32,
    y: u32,
    u: u32,
    v: u32,
    l: u32,
    m: u32,
) -> Writer
    requires { MergeReady w p x y u v l m }
    ensures { Wrote w table.old (merge p w.wire x y u v l m) table.new result }
{
    let compared = contest(w, table, p, x, y, high_digits(p, l + m));
    let q = compared.wire - 2;
    let judged = select_flags(compared, table, q);
    let first = keep_winners(judged, table, u, q + 4, l);
    keep_winners(first, table, v, q + 3, m)
}

// The better of the keys at x and y, by a contest with its result at wires q and q + 1.
pub(crate) fn better(w: Writer, table: &mut [u32], p: Plan, q: u32, x: u32, y: u32) -> Writer
    requires { BetterReady w p q x y }
    ensures { Wrote w table.old (choose (q + 1) x y (key_span p)) table.new result }
{
    let span = key_span(p);
    w.choose(table, q + 1, x, y, span)
}

// The number of wires of a key.
pub(crate) fn key_span(p: Plan) -> u32
    requires { Planned p }
    ensures { result ≡ key_span p }
{
    (p.grades - 1) * (p.digits + 1)
}
