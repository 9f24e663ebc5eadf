// The tests of the ballots of 64 juries at once: bit j of a word of faults says whether jury j has the fault.
ghost use Rattle.std.specs.Prelude.{◌≡◌, cond, ℕ, ◌*◌, ◌<◌, T, eqb, length};
ghost use Rattle.jury.specs.Shape.{within_limits};
ghost use Rattle.jury.specs.Reason.{refused_for, first_of};
ghost use Rattle.jury.specs.Ballots.{ones, rows_of, first_bad_row};
ghost use Rattle.batch_lanes.specs.Lane.{lane_count, lane, lane_of};
ghost use Rattle.batch.specs.Ballots.{word_graded_reasons, word_ranked_reasons, word_ballot_reasons};
ghost use Rattle.batch.specs.inner.Found.{found_bit, first_set};
ghost use Rattle.jury.specs.inner.Ballots.{GradedSize};

use batch_lanes::word;
use jury::reason::Refusal;
use jury::shape::Shape;

// How many juries a word serves.
const JURIES: u32 = 64;

// Tests for reason 4, then for those of the shape's kind: 6 for grades, 11 and 12 for rankings.
pub fn test(shape: Shape, ballots: &[u64]) -> Result<(), Refusal>
    requires { T (within_limits shape) }
    ensures { refused_for result ≡ first_of (word_ballot_reasons shape ballots.now) }
{
    if ballots.len() != shape.ballot_bytes() {
        return Err(Refusal::BallotsLength);
    }
    if shape.is_ranking() {
        test_rankings(shape, ballots)
    } else {
        test_grades(shape, ballots)
    }
}

// Tests graded ballots for reason 6.
fn test_grades(shape: Shape, ballots: &[u64]) -> Result<(), Refusal>
    requires { GradedSize shape ballots.now }
    ensures { refused_for result ≡ first_of (word_graded_reasons shape ballots.now) }
{
    let faults = bad_rows(ballots, shape.grades, shape.ballots * shape.candidates);
    match first_jury(faults) {
        Some(j) => Err(Refusal::BallotRow(j)),
        None => Ok(()),
    }
}

// Tests rankings: all juries for reason 11, then all juries for 12.
fn test_rankings(shape: Shape, ballots: &[u64]) -> Result<(), Refusal>
    requires { length ballots.now ≡ shape.ballots * shape.candidates * shape.candidates }
    ensures { refused_for result ≡ first_of (word_ranked_reasons shape ballots.now) }
{
    let not_asymmetric = crate::rankings::not_asymmetric(ballots, shape.candidates, shape.ballots);
    if let Some(j) = first_jury(not_asymmetric) {
        return Err(Refusal::NotAsymmetric(j));
    }
    let not_weak_order = crate::rankings::not_weak_order(ballots, shape.candidates, shape.ballots);
    match first_jury(not_weak_order) {
        Some(j) => Err(Refusal::NotWeakOrder(j)),
        None => Ok(()),
    }
}

// The juries in which some row, of d words, has no 1 or several.
fn bad_rows(words: &[u64], d: usize, rows: usize) -> u64
    requires { length words.now ≡ rows * d }
    ensures { (j : ℕ) → j < lane_count → lane j result ≡ found_bit (first_bad_row 0
        (rows_of d rows (lane_of j words.now))) }
{
    let mut faults: u64 = 0;
    // By index: `chunks_exact` would ask that d is above 0.
    for row in 0..rows {
        let at = row * d;
        faults |= bad_row(&words[at..at + d]);
    }
    faults
}

// The juries in which this row has no 1 or several.
#[tactic(auto, using(crate::proofs::RowLaws::row_steps))]
fn bad_row(words: &[u64]) -> u64
    ensures { (j : ℕ) → j < lane_count → lane j result ≡ cond (eqb (ones (lane_of j words.now)) 1) 0 1 }
{
    let mut once: u64 = 0;
    let mut twice: u64 = 0;
    for word in words {
        twice |= once & *word;
        once |= *word;
    }
    twice | (once ^ word::ALL)
}

// The first jury whose bit is set.
#[tactic(auto, using(crate::proofs::JuryLaws::first_at, crate::proofs::JuryLaws::first_nowhere))]
fn first_jury(faults: u64) -> Option<usize>
    ensures { result ≡ first_set faults }
{
    let j = faults.trailing_zeros();
    if j < JURIES { Some(j as usize) } else { None }
}
