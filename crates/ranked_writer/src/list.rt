// Writes the own list of a ranked tasting.
ghost use Rattle.std.specs.Prelude.{◌*◌};
ghost use Rattle.gate_words.specs.Writing.{Wrote};
ghost use Rattle.ranked_circuit.specs.Paths.{paths_to};
ghost use Rattle.ranked_circuit.specs.RankedList.{ranked_list};
ghost use Rattle.ranked_circuit.specs.OwnRanking.{own_ranking};
ghost use Rattle.ranked_writer.specs.inner.Contests.{ContestsReady, ContestsDone, CircuitReady};
ghost use Rattle.ranked_writer.specs.inner.Paths.{FirstReady, FirstDone, PathsReady, WordsDone};
ghost use Rattle.ranked_writer.specs.inner.Paths.{PairReady, ListReady};

use crate::losers::{loser_rows, output_gates};
use crate::tables::{links_table, meetings_table, path_table, votes_table};
use gate_words::writer::Writer;
use gates::kind;
use jury::shape::Shape;
use jury::width::width;
use ranked_blocks::entries::Ranks;

// The largest number of pairs of candidates: a word's place is kept for each, in arrays, since no memory is taken.
const PAIRS: usize = Shape::MOST_CANDIDATES * Shape::MOST_CANDIDATES;

// The tables of the numbers of ballots and of the links.
fn first_tables(
    w: Writer,
    table: &mut [u32],
    links: &mut [u32],
    words: &mut [u32],
    p: Ranks,
) -> Writer
    requires { FirstReady w links.old words.old p }
    ensures { FirstDone w table.old table.new result p links.new words.new }
{
    let counted = votes_table(w, table, words, p);
    links_table(counted, table, words, links, p, 0)
}

// The first tables, and all stages of the paths. No detour goes over the last candidate.
fn path_tables(w: Writer, table: &mut [u32], words: &mut [u32], p: Ranks) -> Writer
    requires { PathsReady w words.old p }
    ensures { WordsDone w table.old (paths_to p.candidates p.ballots p.digits p.candidates).gates
        table.new result p.candidates words.new
        (paths_to p.candidates p.ballots p.digits p.candidates).words }
{
    let mut links = [0u32; PAIRS];
    let mut next = first_tables(w, table, &mut links, words, p);
    for m in 0..p.candidates {
        next = path_table(next, table, &links, words, p, m);
    }
    next
}

// Who beats whom: first the duels of the last candidate with each of the others, then the meetings of the others.
fn contests(w: Writer, table: &mut [u32], words: &[u32], beats: &mut [u32], p: Ranks) -> Writer
    requires { ContestsReady w words.now beats.old p }
    ensures { ContestsDone w table.old table.new result p beats.new }
{
    let met = links_table(w, table, words, beats, p, p.candidates - 1);
    meetings_table(met, table, words, beats, p)
}

// The list for two candidates. Their links say who is beaten.
fn pair_circuit(w: Writer, table: &mut [u32], p: Ranks) -> Writer
    requires { PairReady w p }
    ensures { Wrote w table.old (ranked_list p.candidates p.ballots p.digits) table.new result }
{
    let mut links = [0u32; PAIRS];
    let mut words = [0u32; PAIRS];
    let linked = first_tables(w, table, &mut links, &mut words, p);
    output_gates(linked, table, &links, p.candidates, linked.wire)
}

// The list for three or more candidates.
fn circuit(w: Writer, table: &mut [u32], p: Ranks) -> Writer
    requires { CircuitReady w p }
    ensures { Wrote w table.old (ranked_list p.candidates p.ballots p.digits) table.new result }
{
    let mut words = [0u32; PAIRS];
    let mut beats = [0u32; PAIRS];
    let paths = path_tables(w, table, &mut words, p);
    let met = contests(paths, table, &words, &mut beats, p);
    let lost = loser_rows(met, table, &beats, p.candidates);
    output_gates(lost, table, &beats, p.candidates, met.wire)
}

// Writes the own list for this number of candidates and ballots from the table's first number on, as far as there is
// room. The writer that it returns has counted all gates and all conditional ones, even if the table is too short.
pub fn ranked_list(candidates: u32, ballots: u32, table: &mut [u32]) -> Writer
    requires { ListReady candidates ballots }
    ensures { Wrote (record { gate = 0; wire = ballots * candidates * candidates; conditional = 0 }) table.old
        (own_ranking candidates ballots) table.new result }
{
    let w = Writer::new(ballots * candidates * candidates);
    if candidates == 1 {
        return w.emit(table, kind::ONE, 0, 0, 0);
    }
    let digits = width(ballots as usize) as u32 - 1;
    let p = Ranks {
        candidates,
        ballots,
        digits,
    };
    if candidates == 2 {
        return pair_circuit(w, table, p);
    }
    circuit(w, table, p)
}
