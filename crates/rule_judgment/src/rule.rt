// Full majority judgment from the matrix of grade counts. Nothing is struck out: the running sums of two candidates
// at two grades decide whose sequence comes first, and sequences are equal only if all counts are equal.
ghost use Rattle.std.specs.Prelude.{◌≡◌, ◌≤◌, [], take, get_or};
ghost use Rattle.jury.specs.ClosingBytes.{eight_bytes};
ghost use Rattle.jury.specs.inner.Counts.{rows_in};
ghost use Rattle.jury.specs.Shape.{most_ballots};
ghost use Rattle.rule_judgment.specs.Judgment.{sequence_of, precedes, judgment_of};
ghost use Rattle.rule_judgment.specs.inner.Decision.{byte_beside, half_reached, decided_by};
ghost use Rattle.rule_judgment.specs.inner.Ready.{WinnersReady, FirstReady, WinningCandidate, RowsReady, Compared, SumsReady};

use jury::counts::GradeCounts;
use jury::shape::{ClosingBytes, Shape};

// Running sums of two candidates a and b at one grade: how many of their grades are that good or better.
#[derive(Clone, Copy)]
pub struct Sums {
    pub a: usize,
    pub b: usize,
}

// The closing bytes: 1 for each candidate with the first sequence, 0 for the others and from place k on. There is no
// loop, and the matrix is lent: reading or copying as a whole what was just stored in parts would stall the processor.
pub fn winners(shape: Shape, counts: &GradeCounts) -> ClosingBytes
    requires { WinnersReady shape counts.now }
    ensures { result ≡ eight_bytes (judgment_of (rows_in shape.candidates shape.grades counts.now)) }
{
    let first = first_winner(shape, counts);
    [
        closing_byte(shape, counts, 0, first),
        closing_byte(shape, counts, 1, first),
        closing_byte(shape, counts, 2, first),
        closing_byte(shape, counts, 3, first),
        closing_byte(shape, counts, 4, first),
        closing_byte(shape, counts, 5, first),
        closing_byte(shape, counts, 6, first),
        closing_byte(shape, counts, 7, first),
    ]
}

// The closing byte of candidate c: 1 if it is one of the shape's and has the counts of `first`, who wins.
fn closing_byte(shape: Shape, counts: &GradeCounts, c: usize, first: usize) -> u8
    requires { RowsReady counts.now c first shape.grades }
    ensures { result ≡ byte_beside counts.now shape.candidates shape.grades first c }
{
    if shape.candidates <= c {
        return 0;
    }
    u8::from(same_counts(shape, counts, c, first))
}

// A candidate whose sequence no other sequence precedes.
fn first_winner(shape: Shape, counts: &GradeCounts) -> usize
    requires { FirstReady counts.now shape.candidates shape.grades shape.ballots }
    ensures { WinningCandidate counts.now shape.candidates shape.grades result }
{
    let mut first = 0;
    for c in 1..shape.candidates {
        if comes_before(shape, counts, c, first) {
            first = c;
        }
    }
    first
}

// Whether candidates a and b have the same counts.
fn same_counts(shape: Shape, counts: &GradeCounts, a: usize, b: usize) -> bool
    requires { RowsReady counts.now a b shape.grades }
    ensures { Compared (take shape.grades (get_or counts.now a [])) (take shape.grades (get_or counts.now b []))
        shape.grades result }
{
    counts[a][..shape.grades] == counts[b][..shape.grades]
}

// Whether the sequence of candidate a comes before that of b.
fn comes_before(shape: Shape, counts: &GradeCounts, a: usize, b: usize) -> bool
    requires { SumsReady counts.now a b shape.grades shape.ballots }
    ensures { result ≡ precedes (sequence_of (take shape.grades (get_or counts.now a [])))
        (sequence_of (take shape.grades (get_or counts.now b []))) }
{
    let mut lower = Sums { a: 0, b: 0 };
    let mut sums = Sums { a: 0, b: 0 };
    for g in 0..shape.grades {
        sums = Sums {
            a: sums.a + usize::from(counts[a][g]),
            b: sums.b + usize::from(counts[b][g]),
        };
        if sums.a != sums.b {
            if half_reached(shape.ballots, sums) {
                return decided(shape.ballots, lower, sums);
            }
            lower = sums;
        }
    }
    lower.b < lower.a
}

// Whether the sum of one of the two is at least half of n.
fn half_reached(n: usize, sums: Sums) -> bool
    requires { (sums.a ≤ most_ballots) × (sums.b ≤ most_ballots) }
    ensures { result ≡ half_reached n sums }
{
    n <= 2 * sums.a || n <= 2 * sums.b
}

// Whether a comes before b. `lower` has their sums at the last difference below half (0 and 0 if there is none),
// `upper` their sums at the first difference from half on.
fn decided(n: usize, lower: Sums, upper: Sums) -> bool
    requires { (lower.a ≤ most_ballots) × (lower.b ≤ most_ballots)
        × (upper.a ≤ most_ballots) × (upper.b ≤ most_ballots) }
    ensures { result ≡ decided_by n lower upper }
{
    if lower.b < lower.a {
        return upper.b <= upper.a || n <= lower.a + upper.a;
    }
    if lower.a < lower.b {
        return upper.b < upper.a && lower.b + upper.b < n;
    }
    upper.b < upper.a
}
