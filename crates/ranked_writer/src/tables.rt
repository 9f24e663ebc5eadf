// The tables: k rows of k blocks, row by row.
//
// Four loops, and no function over a closure: its clauses would have to say for each kind of block what is kept between
// two blocks, which is longer than the loop.
ghost use Rattle.std.specs.Prelude.{cond, suc, ◌-◌, leb, ltb};
ghost use Rattle.ranked_circuit.specs.Table as spec;
ghost use Rattle.ranked_circuit.specs.Table.{entry_end};
ghost use Rattle.ranked_circuit.specs.Stages.{votes_block, links_block, stays, path_block};
ghost use Rattle.ranked_circuit.specs.Contests.{meetings_block};
ghost use Rattle.ranked_blocks.specs.Ranked.{kept_of};
ghost use Rattle.ranked_writer.specs.inner.Contests.{TableReady, TableDone};
ghost use Rattle.ranked_writer.specs.inner.Paths.{VotesTableReady, StageReady, WordsDone};

use gate_words::writer::Writer;
use ranked_blocks::entries::{Ranks, links_entry, meetings_entry, path_entry, votes_entry};

// The table of the numbers of ballots. The first wire of each word is kept in `words`.
pub(crate) fn votes_table(w: Writer, table: &mut [u32], words: &mut [u32], p: Ranks) -> Writer
    requires { VotesTableReady w words.old p }
    ensures { WordsDone w table.old (spec.table w.wire p.candidates
        (votes_block p.candidates p.ballots p.digits)) table.new result p.candidates
        words.new (λ i j. entry_end w.wire p.candidates
        (votes_block p.candidates p.ballots p.digits) i j - suc p.digits) }
{
    let k = p.candidates;
    let mut next = w;
    for e in 0..k * k {
        next = votes_entry(next, table, words, p, e);
    }
    next
}

// The table of links: one for each pair of candidates, if the later one is at least `first`. The wires that say which
// word is larger are kept in `links`.
pub(crate) fn links_table(
    w: Writer,
    table: &mut [u32],
    words: &[u32],
    links: &mut [u32],
    p: Ranks,
    first: u32,
) -> Writer
    requires { TableReady w words.now links.old p (links_block first (kept_of words.now p.candidates) p.digits) }
    ensures { TableDone w table.old table.new result p.candidates
        (links_block first (kept_of words.now p.candidates) p.digits) (leb first) links.old
        links.new }
{
    let k = p.candidates;
    let mut next = w;
    for e in 0..k * k {
        next = links_entry(next, table, words, links, p, first, e);
    }
    next
}

// The table of meetings: one for each pair of candidates but the last. The duels with the last are already in `met`.
pub(crate) fn meetings_table(
    w: Writer,
    table: &mut [u32],
    words: &[u32],
    met: &mut [u32],
    p: Ranks,
) -> Writer
    requires { TableReady w words.now met.old p (meetings_block (p.candidates - 1) (kept_of words.now p.candidates)
        (kept_of met.old p.candidates) p.digits) }
    ensures { TableDone w table.old table.new result p.candidates
        (meetings_block (p.candidates - 1) (kept_of words.now p.candidates)
        (kept_of met.old p.candidates) p.digits) (λ i. ltb i (p.candidates - 1)) met.old
        met.new }
{
    let k = p.candidates;
    let mut next = w;
    for e in 0..k * k {
        next = meetings_entry(next, table, words, met, p, e);
    }
    next
}

// The table of stage m of the paths. The first wire of each new word is kept in `words`.
pub(crate) fn path_table(
    w: Writer,
    table: &mut [u32],
    links: &[u32],
    words: &mut [u32],
    p: Ranks,
    m: u32,
) -> Writer
    requires { StageReady w words.old links.now p m }
    ensures { WordsDone w table.old (spec.table w.wire p.candidates
        (path_block p.candidates (kept_of links.now p.candidates)
        (kept_of words.old p.candidates) p.digits m)) table.new result p.candidates
        words.new (λ i j. cond (stays m i j) (kept_of words.old p.candidates i j)
        (entry_end w.wire p.candidates (path_block p.candidates (kept_of links.now p.candidates)
        (kept_of words.old p.candidates) p.digits m) i j - suc p.digits)) }
{
    let k = p.candidates;
    let mut next = w;
    for e in 0..k * k {
        next = path_entry(next, table, links, words, p, m, e);
    }
    next
}
