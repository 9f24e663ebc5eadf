// The matrix of grade counts, with one row for each candidate, filled ballot by ballot.
ghost use Rattle.std.specs.Prelude.{◌≡◌};
ghost use Rattle.jury.specs.Accepted.{GradedBallots};
ghost use Rattle.jury.specs.inner.Counts.{plus_row, plus_ballot, RowReady, BallotReady, Counted};

use crate::shape::Shape;

// The counts of one candidate, best grade first.
pub type CandidateCounts = [u16; Shape::MOST_GRADES];

// The counts of all candidates.
pub type GradeCounts = [CandidateCounts; Shape::MOST_CANDIDATES];

// How many ballots give each candidate each grade. Entries outside the shape stay 0.
pub fn counts(shape: Shape, ballots: &[u8]) -> GradeCounts
    requires { GradedBallots shape ballots.now }
    ensures { Counted shape ballots.now result }
{
    // By index, here and below: short rows take half as long again by `chunks_exact`.
    let mut counts = [[0; Shape::MOST_GRADES]; Shape::MOST_CANDIDATES];
    let size = shape.candidates * shape.grades;
    for b in 0..shape.ballots {
        let at = b * size;
        add_ballot(&mut counts, &ballots[at..at + size], shape);
    }
    counts
}

// Adds one ballot, a row of grades for each candidate, to the counts. They are lent, not passed by value: copying
// what was just stored would stall the processor at each row.
fn add_ballot(counts: &mut GradeCounts, ballot: &[u8], shape: Shape)
    requires { BallotReady shape counts.old ballot.now }
    ensures { counts.new ≡ plus_ballot shape.candidates shape.grades counts.old ballot.now }
{
    for c in 0..shape.candidates {
        let at = c * shape.grades;
        add_row(&mut counts[c], &ballot[at..at + shape.grades]);
    }
}

// Adds one row of a ballot to the counts of one candidate. Each byte is added as it is: in accepted ballots it is 0
// or 1.
fn add_row(counts: &mut CandidateCounts, row: &[u8])
    requires { RowReady counts.old row.now }
    ensures { counts.new ≡ plus_row counts.old row.now }
{
    for (g, byte) in row.iter().enumerate() {
        counts[g] += u16::from(*byte);
    }
}
