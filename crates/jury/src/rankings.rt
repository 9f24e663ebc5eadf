// The tests of ranked ballots.
ghost use Rattle.std.specs.Prelude.{◌≡◌, ◌+◌, ◌*◌, ◌≤◌, ◌<◌, length};
ghost use Rattle.jury.specs.Rankings as spec;

// One ballot among all: a row of bytes for each candidate, and in each row a byte for each candidate.
#[derive(Clone, Copy)]
struct Ranking<'a> {
    ballots: &'a [u8],
    candidates: usize,
    ballot: usize,
    ghost inside: { (ballot + 1) * candidates * candidates ≤ length ballots.now },
}

// Reason 11: the first byte, through all ballots, that is 1 and whose opposite is 1 too.
#[tactic(auto, using(crate::proofs::Searches::finds), unfolding(crate::specs::Rankings::first_not_asymmetric))]
pub fn first_not_asymmetric(ballots: &[u8], k: usize, n: usize) -> Option<usize>
    requires { length ballots.now ≡ n * k * k }
    ensures { result ≡ spec.first_not_asymmetric k n ballots.now }
{
    for ballot in 0..n {
        let ranking = Ranking {
            ballots,
            candidates: k,
            ballot,
        };
        if let Some(place) = ranking.not_asymmetric() {
            return Some(place);
        }
    }
    None
}

// Reason 12: the first ballot in which some i is before some j, and a third candidate is not after i and not before
// j.
#[tactic(auto, using(crate::proofs::Searches::finds), unfolding(crate::specs::Rankings::first_not_weak_order))]
pub fn first_not_weak_order(ballots: &[u8], k: usize, n: usize) -> Option<usize>
    requires { length ballots.now ≡ n * k * k }
    ensures { result ≡ spec.first_not_weak_order k n ballots.now }
{
    for ballot in 0..n {
        let ranking = Ranking {
            ballots,
            candidates: k,
            ballot,
        };
        if ranking.is_not_weak_order() {
            return Some(ballot);
        }
    }
    None
}

impl<'a> Ranking<'a> {
    // The first byte of this ballot with reason 11.
    #[tactic(auto, using(crate::proofs::Searches::finds), unfolding(crate::specs::Rankings::not_asymmetric_in_ballot))]
    fn not_asymmetric(&self) -> Option<usize>
        ensures { result ≡ spec.not_asymmetric_in_ballot self.now.candidates self.now.ballots.now self.now.ballot }
    {
        for i in 0..self.candidates {
            if let Some(place) = self.not_asymmetric_in_row(i) {
                return Some(place);
            }
        }
        None
    }

    // The first byte of row i with reason 11.
    #[tactic(auto, using(crate::proofs::Searches::finds), unfolding(crate::specs::Rankings::not_asymmetric_in_row))]
    fn not_asymmetric_in_row(&self, i: usize) -> Option<usize>
        requires { i < self.now.candidates }
        ensures { result ≡ spec.not_asymmetric_in_row self.now.candidates self.now.ballots.now self.now.ballot i }
    {
        for j in 0..self.candidates {
            if self.is_before(i, j) && self.is_before(j, i) {
                return Some(self.place(i, j));
            }
        }
        None
    }

    // Whether reason 12 applies to this ballot.
    #[tactic(auto, using(crate::proofs::Searches::tests), unfolding(crate::specs::Rankings::not_weak_order))]
    fn is_not_weak_order(&self) -> bool
        ensures { result ≡ spec.not_weak_order self.now.candidates self.now.ballots.now self.now.ballot }
    {
        for i in 0..self.candidates {
            if self.is_not_weak_order_after(i) {
                return true;
            }
        }
        false
    }

    // Whether i is before some j, and a third candidate is not after i and not before j.
    #[tactic(auto, using(crate::proofs::Searches::tests), unfolding(crate::specs::Rankings::not_weak_order_after))]
    fn is_not_weak_order_after(&self, i: usize) -> bool
        requires { i < self.now.candidates }
        ensures { result ≡ spec.not_weak_order_after self.now.candidates self.now.ballots.now self.now.ballot i }
    {
        for j in 0..self.candidates {
            if self.is_before(i, j) && self.neither_after_nor_before(i, j) {
                return true;
            }
        }
        false
    }

    // Whether some candidate is not after i and not before j.
    #[tactic(auto, using(crate::proofs::Searches::tests), unfolding(crate::specs::Rankings::neither_after_nor_before))]
    fn neither_after_nor_before(&self, i: usize, j: usize) -> bool
        requires { (i < self.now.candidates) × (j < self.now.candidates) }
        ensures { result ≡ spec.neither_after_nor_before
            self.now.candidates self.now.ballots.now self.now.ballot i j }
    {
        for l in 0..self.candidates {
            if !self.is_before(i, l) && !self.is_before(l, j) {
                return true;
            }
        }
        false
    }

    // Whether this ballot puts i strictly before j.
    #[tactic(auto, unfolding(crate::specs::Rankings::before))]
    fn is_before(&self, i: usize, j: usize) -> bool
        requires { (i < self.now.candidates) × (j < self.now.candidates) }
        ensures { result ≡ spec.before self.now.candidates self.now.ballots.now self.now.ballot i j }
    {
        self.ballots[self.place(i, j)] == 1
    }

    // The place of the byte in row i and column j.
    #[tactic(auto, unfolding(crate::specs::Rankings::rank_place))]
    fn place(&self, i: usize, j: usize) -> usize
        requires { (i < self.now.candidates) × (j < self.now.candidates) }
        ensures place { result ≡ spec.rank_place self.now.candidates self.now.ballot i j }
        ensures inside { result < length self.now.ballots.now }
    {
        (self.ballot * self.candidates + i) * self.candidates + j
    }
}
