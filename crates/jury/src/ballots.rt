// The tests of ballots.
ghost use Rattle.std.specs.Prelude.{◌≡◌, ◌*◌, ◌≤◌, T, length};
ghost use Rattle.jury.specs.Shape.{most_candidates, within_limits};
ghost use Rattle.jury.specs.Reason.{refused_for, first_of};
ghost use Rattle.jury.specs.Ballots.{graded_reasons, ranked_reasons, ballot_reasons};
ghost use Rattle.jury.specs.inner.Ballots.{GradedBits};
ghost use Rattle.jury.specs.inner.Orders.{RankedSize};
ghost use Rattle.std.specs.List.{sum};

use crate::reason::Refusal;
use crate::shape::Shape;

// Reasons 4 and 5, then those of the shape's kind: 6 for grades, 11 and 12 for rankings. Each test looks at
// everything before the next begins.
pub fn test(shape: Shape, ballots: &[u8]) -> Result<(), Refusal>
    requires { T (within_limits shape) }
    ensures { refused_for result ≡ first_of (ballot_reasons shape ballots.now) }
{
    if ballots.len() != shape.ballot_bytes() {
        return Err(Refusal::BallotsLength);
    }
    if let Some(i) = gates::place::first_above_one(ballots) {
        return Err(Refusal::BallotByte(i));
    }
    if shape.is_ranking() {
        test_orders(shape, ballots)
    } else {
        test_grades(shape, ballots)
    }
}

// Tests graded ballots for reason 6: a row that has no 1 or several.
fn test_grades(shape: Shape, ballots: &[u8]) -> Result<(), Refusal>
    requires { GradedBits shape ballots.now }
    ensures { refused_for result ≡ first_of (graded_reasons shape ballots.now) }
{
    // By index: short rows take a quarter longer by `chunks_exact`.
    for r in 0..shape.ballots * shape.candidates {
        let at = r * shape.grades;
        if row_sum(&ballots[at..at + shape.grades]) != 1 {
            return Err(Refusal::BallotRow(r));
        }
    }
    Ok(())
}

// Tests rankings. The searches for what is wrong end early and branch on the ballots, so only a refused call makes
// them.
#[tactic(auto, using(crate::proofs::BallotLaws::ranked_found), unfolding(crate::specs::Reason::refused_for))]
fn test_orders(shape: Shape, ballots: &[u8]) -> Result<(), Refusal>
    requires { RankedSize shape ballots.now }
    ensures { refused_for result ≡ first_of (ranked_reasons shape ballots.now) }
{
    if crate::orders::are_orders(shape, ballots) {
        return Ok(());
    }
    test_rankings(shape, ballots)
}

// Tests rankings: all ballots for reason 11, then all ballots for 12.
#[tactic(auto, using(crate::proofs::BallotLaws::ranked_found), unfolding(crate::specs::Reason::refused_for))]
fn test_rankings(shape: Shape, ballots: &[u8]) -> Result<(), Refusal>
    requires { length ballots.now ≡ shape.ballots * shape.candidates * shape.candidates }
    ensures { refused_for result ≡ first_of (ranked_reasons shape ballots.now) }
{
    if let Some(i) = crate::rankings::first_not_asymmetric(
        ballots,
        shape.candidates,
        shape.ballots,
    ) {
        return Err(Refusal::NotAsymmetric(i));
    }
    match crate::rankings::first_not_weak_order(ballots, shape.candidates, shape.ballots) {
        Some(b) => Err(Refusal::NotWeakOrder(b)),
        None => Ok(()),
    }
}

// The sum of a row's bytes: of bits, the number of ones.
pub(crate) fn row_sum(row: &[u8]) -> usize
    requires { length row.now ≤ most_candidates }
    ensures { result ≡ sum row.now }
{
    row.iter().map(|byte| usize::from(*byte)).sum()
}
