// The blocks of the tables. Block e is that of row i = e / k and column j = e % k.
ghost use Rattle.std.specs.Prelude.{◌-◌, ◌/◌, ◌%◌, eqb, leb, ltb};
ghost use Rattle.gate_words.specs.Writing.{Wrote};
ghost use Rattle.ranked_circuit.specs.Stages as spec;
ghost use Rattle.ranked_circuit.specs.Stages.{votes_block, links_block, new_word, path_block};
ghost use Rattle.ranked_circuit.specs.Contests.{meeting_of, meetings_block};
ghost use Rattle.ranked_blocks.specs.Ranked.{kept_of};
ghost use Rattle.ranked_blocks.specs.inner.Entries.{BlockReady, VotesReady, PathReady, Meets, WordReady};
ghost use Rattle.ranked_blocks.specs.inner.Entries.{Entered, WordEntered};

use crate::kept::{cut_at, kept, stays};
use gate_adders::counter::counter;
use gate_words::writer::Writer;
use ranked_words::blocks::{compare, link_or_way, path_or_way};
use ranked_words::meeting::meeting;

// The public numbers from which the list is written: k, n, and the number of digits that a word has above its lowest.
#[derive(Clone, Copy)]
pub struct Ranks {
    pub candidates: u32,
    pub ballots: u32,
    pub digits: u32,
}

// Block e of the votes: the number of ballots that put i before j. The first wire of its word is kept in `words`.
pub fn votes_entry(w: Writer, table: &mut [u32], words: &mut [u32], p: Ranks, e: u32) -> Writer
    requires { VotesReady w words.old p e }
    ensures { WordEntered w table.old (votes_block p.candidates p.ballots p.digits w.wire
        (e / p.candidates) (e % p.candidates)) table.new result (eqb (e / p.candidates) (e % p.candidates))
        words.old e p.digits words.new }
{
    let k = p.candidates;
    if e / k == e % k {
        return w;
    }
    let next = counter(w, table, e, k * k, p.ballots, 0, p.digits);
    words[e as usize] = next.wire - p.digits - 1;
    next
}

// Block e of the links: compares the words of i and j, once for both, if i is the later candidate and at least
// `first`. The wires that say which word is larger are kept in `links`.
pub fn links_entry(
    w: Writer,
    table: &mut [u32],
    words: &[u32],
    links: &mut [u32],
    p: Ranks,
    first: u32,
    e: u32,
) -> Writer
    requires { BlockReady w words.now links.old p (links_block first (kept_of words.now p.candidates) p.digits) e }
    ensures { Entered w table.old (links_block first (kept_of words.now p.candidates) p.digits
        w.wire (e / p.candidates) (e % p.candidates)) table.new result (leb first) links.old
        p.candidates (e / p.candidates) (e % p.candidates) links.new }
{
    let k = p.candidates;
    let i = e / k;
    let j = e % k;
    if i <= j || i < first {
        return w;
    }
    let next = compare(
        w,
        table,
        kept(words, k, i, j),
        kept(words, k, j, i),
        p.digits,
    );
    links[(i * k + j) as usize] = next.wire - 2;
    links[(j * k + i) as usize] = next.wire - 1;
    next
}

// The meeting of candidate i and an earlier j, neither of whom is the last.
fn meet(
    w: Writer,
    table: &mut [u32],
    words: &[u32],
    met: &[u32],
    p: Ranks,
    i: u32,
    j: u32,
) -> Writer
    requires { Meets w words.now met.now p i j }
    ensures { Wrote w table.old (meeting_of (p.candidates - 1) (kept_of words.now p.candidates)
        (kept_of met.now p.candidates) p.digits w.wire i j) table.new result }
{
    let k = p.candidates;
    let l = k - 1;
    meeting(
        w,
        table,
        kept(words, k, l, i),
        kept(words, k, l, j),
        kept(words, k, i, j),
        kept(words, k, j, i),
        kept(met, k, i, l),
        kept(met, k, j, l),
        p.digits,
    )
}

// Block e of the meetings, if there is one. The wires that say who beats whom are kept in `met`.
pub fn meetings_entry(
    w: Writer,
    table: &mut [u32],
    words: &[u32],
    met: &mut [u32],
    p: Ranks,
    e: u32,
) -> Writer
    requires { BlockReady w words.now met.old p (meetings_block (p.candidates - 1) (kept_of words.now p.candidates)
        (kept_of met.old p.candidates) p.digits) e }
    ensures { Entered w table.old (meetings_block (p.candidates - 1) (kept_of words.now p.candidates)
        (kept_of met.old p.candidates) p.digits w.wire (e / p.candidates) (e % p.candidates))
        table.new result (λ i. ltb i (p.candidates - 1)) met.old p.candidates (e / p.candidates)
        (e % p.candidates) met.new }
{
    let k = p.candidates;
    let i = e / k;
    let j = e % k;
    if i <= j || k - 1 <= i {
        return w;
    }
    let next = meet(w, table, words, met, p, i, j);
    met[(i * k + j) as usize] = next.wire - 2;
    met[(j * k + i) as usize] = next.wire - 1;
    next
}

// The word of i and j after stage m of the paths, if the stage changes it.
fn new_word(
    w: Writer,
    table: &mut [u32],
    links: &[u32],
    words: &[u32],
    p: Ranks,
    m: u32,
    i: u32,
    j: u32,
) -> Writer
    requires { WordReady w words.now links.now p m i j }
    ensures { Wrote w table.old (new_word (kept_of links.now p.candidates)
        (kept_of words.now p.candidates) p.digits (spec.cut_at p.candidates p.digits m i j) m
        w.wire i j) table.new result }
{
    let k = p.candidates;
    let link = kept(links, k, i, j);
    let word = kept(words, k, i, j);
    if m == 0 {
        return w.masked(table, link, word, p.digits + 1);
    }
    let to = kept(words, k, i, m - 1);
    let from = kept(words, k, m - 1, j);
    let cut = cut_at(k, p.digits, m, i, j);
    if m == 1 {
        return link_or_way(w, table, link, word, to, from, p.digits, cut);
    }
    path_or_way(w, table, word, to, from, p.digits, cut)
}

// Block e of stage m: a new word, whose first wire is kept in `words`. If the stage leaves the word, there is no
// block.
pub fn path_entry(
    w: Writer,
    table: &mut [u32],
    links: &[u32],
    words: &mut [u32],
    p: Ranks,
    m: u32,
    e: u32,
) -> Writer
    requires { PathReady w words.old links.now p m e }
    ensures { WordEntered w table.old (path_block p.candidates (kept_of links.now p.candidates)
        (kept_of words.old p.candidates) p.digits m w.wire (e / p.candidates) (e % p.candidates))
        table.new result (spec.stays m (e / p.candidates) (e % p.candidates)) words.old e
        p.digits words.new }
{
    let i = e / p.candidates;
    let j = e % p.candidates;
    if stays(m, i, j) {
        return w;
    }
    let next = new_word(w, table, links, words, p, m, i, j);
    words[e as usize] = next.wire - p.digits - 1;
    next
}
