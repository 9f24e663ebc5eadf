// How many ballots put one candidate before another, for every pair.
ghost use Rattle.std.specs.Prelude.{◌≡◌, ℕ, ◌<◌, get_or};
ghost use Rattle.rule_schulze.specs.Votes as spec;
ghost use Rattle.rule_schulze.specs.inner.Tables.{Holds, RankedSize, VotesRowReady, VotesReady};

use jury::shape::Shape;

// A number for each candidate.
pub type PairRow = [u16; Shape::MOST_CANDIDATES];

// A number for each pair of candidates.
pub type PairTable = [PairRow; Shape::MOST_CANDIDATES];

// The matrix of votes: entry (i, j) is the number of ballots that put i before j. Rows and columns from k on stay 0.
// This table and those of the rule have a function each: one filler for all would take a closure with the same clauses.
pub fn matrix(ballots: &[u8], k: usize, n: usize) -> PairTable
    requires { RankedSize k n ballots.now }
    ensures { Holds k result (spec.votes k n ballots.now) }
{
    let mut table = [[0u16; Shape::MOST_CANDIDATES]; Shape::MOST_CANDIDATES];
    for i in 0..k {
        table[i] = row_of(ballots, k, n, i);
    }
    table
}

// Row i of the matrix.
fn row_of(ballots: &[u8], k: usize, n: usize, i: usize) -> PairRow
    requires { VotesRowReady k n ballots.now i }
    ensures { (j : ℕ) → j < k → get_or result j 0 ≡ spec.votes k n ballots.now i j }
{
    let mut row = [0u16; Shape::MOST_CANDIDATES];
    for j in 0..k {
        row[j] = count_of(ballots, k, n, i, j);
    }
    row
}

// How many ballots put i before j.
fn count_of(ballots: &[u8], k: usize, n: usize, i: usize, j: usize) -> u16
    requires { VotesReady k n ballots.now i j }
    ensures { result ≡ spec.votes k n ballots.now i j }
{
    let ballot = k * k;
    let mut at = i * k + j;
    let mut count = 0;
    for _ in 0..n {
        if ballots[at] == 1 {
            count += 1;
        }
        at += ballot;
    }
    count
}
