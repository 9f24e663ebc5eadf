// Schulze's rule on a matrix of votes.
ghost use Rattle.std.specs.Prelude.{◌≡◌, ℕ, ◌≤◌, ◌<◌, min, max, cond, ltb, get_or};
ghost use Rattle.jury.specs.ClosingBytes.{eight_bytes};
ghost use Rattle.jury.specs.Shape.{most_candidates};
ghost use Rattle.rule_schulze.specs.Schulze as spec;
ghost use Rattle.rule_schulze.specs.Closure as closure;
ghost use Rattle.rule_schulze.specs.inner.Tables.{entry, Holds, HoldsPairs, unbeaten_in};

use crate::votes::{PairRow, PairTable};
use jury::shape::{ClosingBytes, Shape};

// The closing bytes: 1 for a winner, 0 for the others and from place k on.
pub fn winners(votes: PairTable, k: usize) -> ClosingBytes
    requires { k ≤ most_candidates }
    ensures { result ≡ eight_bytes (spec.schulze_of (entry votes) k) }
{
    let paths = strongest_paths(links(votes, k), k);
    let mut closing = [0u8; Shape::MOST_CANDIDATES];
    for i in 0..k {
        closing[i] = u8::from(wins(paths, k, i));
    }
    closing
}

// Whether no candidate j has a stronger path to i than i has to j.
fn wins(paths: PairTable, k: usize, i: usize) -> bool
    requires { (k ≤ most_candidates) × (i < k) }
    ensures { result ≡ unbeaten_in paths k i }
{
    for j in 0..k {
        if j != i && paths[i][j] < paths[j][i] {
            return false;
        }
    }
    true
}

// The strengths of the links.
fn links(votes: PairTable, k: usize) -> PairTable
    requires { k ≤ most_candidates }
    ensures { Holds k result (spec.link (entry votes)) }
{
    let mut links = [[0u16; Shape::MOST_CANDIDATES]; Shape::MOST_CANDIDATES];
    for i in 0..k {
        links[i] = links_of(votes, k, i);
    }
    links
}

// The strengths of the links from i.
fn links_of(votes: PairTable, k: usize, i: usize) -> PairRow
    requires { (k ≤ most_candidates) × (i < k) }
    ensures { (j : ℕ) → j < k → get_or result j 0 ≡ spec.link (entry votes) i j }
{
    let mut row = [0u16; Shape::MOST_CANDIDATES];
    for j in 0..k {
        row[j] = link(votes[i][j], votes[j][i]);
    }
    row
}

// The strength of a link, from the votes in its direction and those in the opposite one.
fn link(forth: u16, back: u16) -> u16
    ensures { result ≡ cond (ltb back forth) forth 0 }
{
    if back < forth { forth } else { 0 }
}

// The strengths of the strongest paths, by the algorithm of Floyd and Warshall.
fn strongest_paths(links: PairTable, k: usize) -> PairTable
    requires { k ≤ most_candidates }
    ensures { HoldsPairs k result (closure.closure k (entry links)) }
{
    let mut paths = links;
    for l in 0..k {
        // Named first: the checker does not follow a result that is stored in what its own call takes.
        let after = detour(paths, k, l);
        paths = after;
    }
    paths
}

// The strengths if paths over l are allowed too.
fn detour(paths: PairTable, k: usize, l: usize) -> PairTable
    requires { (k ≤ most_candidates) × (l < k) }
    ensures { HoldsPairs k result (closure.detour l (entry paths)) }
{
    let mut after = [[0u16; Shape::MOST_CANDIDATES]; Shape::MOST_CANDIDATES];
    for i in 0..k {
        after[i] = detour_from(paths, k, l, i);
    }
    after
}

// Row i of the strengths if paths over l are allowed too. If i or j is l itself, the path over l is never stronger.
fn detour_from(paths: PairTable, k: usize, l: usize, i: usize) -> PairRow
    requires { (k ≤ most_candidates) × (l < k) × (i < k) }
    ensures { (j : ℕ) → j < k
        → get_or result j 0 ≡ max (entry paths i j) (min (entry paths i l) (entry paths l j)) }
{
    let mut row = [0u16; Shape::MOST_CANDIDATES];
    for j in 0..k {
        let way = paths[i][l].min(paths[l][j]);
        row[j] = paths[i][j].max(way);
    }
    row
}
