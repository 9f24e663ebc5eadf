// The shape of a jury: its numbers of candidates, grades and ballots, and their limits. With 0 grades, the jurors
// rank the candidates.
ghost use Rattle.std.specs.Prelude.{◌≡◌, T};
ghost use Rattle.jury.specs.Shape.{is_ranking, graded_limits, ranked_limits, within_limits, ballot_bytes};
ghost use Rattle.jury.specs.Shaped.{Shaped};
ghost use Rattle.jury.specs.Shape as spec;

use crate::reason::Refusal;

// A candidate is a blend. The fields can also hold numbers outside the limits [limits], so that a call can refuse
// them.
#[derive(Clone, Copy)]
pub struct Shape {
    pub candidates: usize,
    pub grades: usize,
    pub ballots: usize,
}

// The closing bytes of a jury: one for each candidate, 0 past the last.
pub type ClosingBytes = [u8; Shape::MOST_CANDIDATES];

impl Shape {
    pub const LEAST_CANDIDATES: usize = 1;

    pub const MOST_CANDIDATES: usize = 8;

    pub const LEAST_GRADES: usize = 2;

    pub const MOST_GRADES: usize = 7;

    pub const LEAST_BALLOTS: usize = 1;

    pub const MOST_BALLOTS: usize = 255;

    // The shape with these numbers, or the refusal if one of them is outside its limits.
    pub fn new(candidates: usize, grades: usize, ballots: usize) -> Result<Shape, Refusal>
        ensures { Shaped (record { candidates = candidates; grades = grades; ballots = ballots }) result }
    {
        let shape = Shape {
            candidates,
            grades,
            ballots,
        };
        if shape.is_within_limits() {
            Ok(shape)
        } else {
            Err(Refusal::Shape)
        }
    }

    // Whether the jurors rank the candidates.
    #[tactic(auto, unfolding(crate::specs::Shape::is_ranking))]
    pub fn is_ranking(self) -> bool
        ensures { result ≡ is_ranking self }
    {
        self.grades == 0
    }

    // Whether a shape is within the limits of a graded jury.
    #[tactic(auto, unfolding(crate::specs::Shape::graded_limits))]
    pub fn is_within_graded_limits(self) -> bool
        ensures { result ≡ graded_limits self }
    {
        (Shape::LEAST_CANDIDATES..=Shape::MOST_CANDIDATES).contains(&self.candidates)
            && (Shape::LEAST_GRADES..=Shape::MOST_GRADES).contains(&self.grades)
            && (Shape::LEAST_BALLOTS..=Shape::MOST_BALLOTS).contains(&self.ballots)
    }

    // Whether a shape is within the limits of a ranked jury.
    #[tactic(auto, unfolding(crate::specs::Shape::ranked_limits, crate::specs::Shape::is_ranking))]
    pub fn is_within_ranked_limits(self) -> bool
        ensures { result ≡ ranked_limits self }
    {
        (Shape::LEAST_CANDIDATES..=Shape::MOST_CANDIDATES).contains(&self.candidates)
            && self.grades == 0
            && (Shape::LEAST_BALLOTS..=Shape::MOST_BALLOTS).contains(&self.ballots)
    }

    // Whether a shape is within the limits of either kind. The fields are public, so not every shape comes from
    // `new`.
    #[tactic(auto, using(crate::proofs::Limits::kinds_apart), unfolding(crate::specs::Shape::within_limits))]
    pub fn is_within_limits(self) -> bool
        ensures { result ≡ within_limits self }
    {
        if self.is_ranking() {
            self.is_within_ranked_limits()
        } else {
            self.is_within_graded_limits()
        }
    }

    // How many bytes a row has: one for each grade or, in a ranking, one for each candidate.
    #[tactic(auto, unfolding(crate::specs::Shape::columns, crate::specs::Shape::is_ranking))]
    pub fn columns(self) -> usize
        ensures { result ≡ spec.columns self }
    {
        if self.grades == 0 {
            self.candidates
        } else {
            self.grades
        }
    }

    // I, the number of ballot bytes.
    #[tactic(auto, using(crate::proofs::Limits::sizes), unfolding(crate::specs::Shape::ballot_bytes))]
    pub fn ballot_bytes(self) -> usize
        requires { T (within_limits self) }
        ensures { result ≡ ballot_bytes self }
    {
        let columns = self.columns();
        self.ballots * self.candidates * columns
    }
}
