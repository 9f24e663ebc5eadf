// Whether rankings are strict weak orders, with the same steps for all of them: accepted ballots are secret. The score
// of a candidate is the sum of its row, the number of those that it is before. In a strict weak order i is before j
// exactly if i has the higher score; so the bytes that say otherwise are counted.
ghost use Rattle.std.specs.Prelude.{◌≡◌, true, ℕ, ◌≤◌, ◌<◌, length};
ghost use Rattle.jury.specs.Shape.{most_candidates};
ghost use Rattle.jury.specs.Rankings.{before};
ghost use Rattle.jury.specs.WeakOrder.{StrictWeakOrder};
ghost use Rattle.jury.specs.inner.Orders.{RankedSize, RankedBallot, AstrayInRow, AstrayInBallot};

use crate::ballots::row_sum;
use crate::shape::Shape;

// A number for each candidate.
type Scores = [usize; Shape::MOST_CANDIDATES];

// Whether no byte of any ballot is astray. Then all ballots are strict weak orders; that it answers so for all strict
// weak orders is what keeps the time of accepted ballots the same, and is tested, not proved.
pub(crate) fn are_orders(shape: Shape, ballots: &[u8]) -> bool
    requires { RankedSize shape ballots.now }
    ensures { result ≡ true → (b : ℕ) → b < shape.ballots
        → StrictWeakOrder shape.candidates (before shape.candidates ballots.now b) }
{
    let k = shape.candidates;
    let mut astray = 0;
    for ballot in ballots.chunks_exact(k * k) {
        astray += astray_in_ballot(ballot, k);
    }
    astray == 0
}

// How many bytes of a ballot differ from what its scores say.
fn astray_in_ballot(ballot: &[u8], k: usize) -> usize
    requires { RankedBallot k ballot.now }
    ensures { AstrayInBallot k ballot.now result }
{
    let mut scores = [0; Shape::MOST_CANDIDATES];
    put_scores(&mut scores, ballot, k);
    let mut astray = 0;
    for (i, row) in ballot.chunks_exact(k).enumerate() {
        astray += astray_in_row(row, &scores, scores[i]);
    }
    astray
}

// The same for one row, whose candidate has the score `own`. The byte that two scores call for says whether the own
// one is higher.
fn astray_in_row(row: &[u8], scores: &Scores, own: usize) -> usize
    requires { length row.now ≤ most_candidates }
    ensures { AstrayInRow row.now scores.now own result }
{
    let mut astray = 0;
    for (j, byte) in row.iter().enumerate() {
        let due = u8::from(scores[j] < own);
        astray += usize::from(*byte != due);
    }
    astray
}

// Puts the score of each candidate of a ballot. The array is lent: reading as a whole what was just stored in parts
// would stall the processor at each ballot.
fn put_scores(scores: &mut Scores, ballot: &[u8], k: usize)
    requires { RankedBallot k ballot.now }
{
    for (i, row) in ballot.chunks_exact(k).enumerate() {
        scores[i] = row_sum(row);
    }
}
