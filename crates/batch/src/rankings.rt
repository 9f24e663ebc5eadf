// The tests of ranked ballots for 64 juries at once, each over all ballots: bit j of a word says whether jury j has
// the fault. `jury::rankings` has the same tests for one jury. It stays apart, because it ends at the first fault and
// answers its place; here a jury's fault ends no search, because the others' are still looked for.
ghost use Rattle.std.specs.Prelude.{◌≡◌, cond, ℕ, ◌+◌, ◌*◌, ◌≤◌, ◌<◌, length};
ghost use Rattle.jury.specs.Rankings as spec;
ghost use Rattle.batch_lanes.specs.Lane.{lane_count, lane, lane_of};
ghost use Rattle.batch.specs.inner.Found.{found_bit};

use batch_lanes::word;

// One ballot of each jury among all: a row of words for each candidate, and in each row a word for each candidate.
#[derive(Clone, Copy)]
struct Ranking<'a> {
    words: &'a [u64],
    candidates: usize,
    ballot: usize,
    ghost inside: { (ballot + 1) * candidates * candidates ≤ length words.now },
}

// Reason 11: the juries in which some byte is 1 and its opposite is 1 too.
#[tactic(auto, using(crate::proofs::RankLaws::steps), unfolding(jury::specs::Rankings::first_not_asymmetric))]
pub fn not_asymmetric(words: &[u64], k: usize, n: usize) -> u64
    requires { length words.now ≡ n * k * k }
    ensures { (u : ℕ) → u < lane_count
        → lane u result ≡ found_bit (spec.first_not_asymmetric k n (lane_of u words.now)) }
{
    let mut faults: u64 = 0;
    for ballot in 0..n {
        let ranking = Ranking {
            words,
            candidates: k,
            ballot,
        };
        faults |= ranking.not_asymmetric();
    }
    faults
}

// Reason 12: the juries with a ballot in which i is before j and a third candidate is not after i and not before j.
#[tactic(auto, using(crate::proofs::RankLaws::steps), unfolding(jury::specs::Rankings::first_not_weak_order))]
pub fn not_weak_order(words: &[u64], k: usize, n: usize) -> u64
    requires { length words.now ≡ n * k * k }
    ensures { (u : ℕ) → u < lane_count
        → lane u result ≡ found_bit (spec.first_not_weak_order k n (lane_of u words.now)) }
{
    let mut faults: u64 = 0;
    for ballot in 0..n {
        let ranking = Ranking {
            words,
            candidates: k,
            ballot,
        };
        faults |= ranking.not_weak_order();
    }
    faults
}

impl<'a> Ranking<'a> {
    // The juries whose ballot has reason 11.
    #[tactic(auto, using(crate::proofs::RankLaws::steps), unfolding(jury::specs::Rankings::not_asymmetric_in_ballot))]
    fn not_asymmetric(&self) -> u64
        ensures { (u : ℕ) → u < lane_count
            → lane u result ≡ found_bit (spec.not_asymmetric_in_ballot self.now.candidates
            (lane_of u self.now.words.now) self.now.ballot) }
    {
        let mut faults: u64 = 0;
        for i in 0..self.candidates {
            faults |= self.not_asymmetric_in_row(i);
        }
        faults
    }

    // The juries whose row i has reason 11.
    #[tactic(auto, using(crate::proofs::RankLaws::steps), unfolding(jury::specs::Rankings::not_asymmetric_in_row))]
    fn not_asymmetric_in_row(&self, i: usize) -> u64
        requires { i < self.now.candidates }
        ensures { (u : ℕ) → u < lane_count
            → lane u result ≡ found_bit (spec.not_asymmetric_in_row self.now.candidates
            (lane_of u self.now.words.now) self.now.ballot i) }
    {
        let mut faults: u64 = 0;
        for j in 0..self.candidates {
            let forth = self.puts_before(i, j);
            let back = self.puts_before(j, i);
            faults |= forth & back;
        }
        faults
    }

    // The juries to whose ballot reason 12 applies.
    #[tactic(auto, using(crate::proofs::RankLaws::steps), unfolding(jury::specs::Rankings::not_weak_order))]
    fn not_weak_order(&self) -> u64
        ensures { (u : ℕ) → u < lane_count
            → lane u result ≡ cond (spec.not_weak_order self.now.candidates (lane_of u self.now.words.now)
            self.now.ballot) 1 0 }
    {
        let mut faults: u64 = 0;
        for i in 0..self.candidates {
            faults |= self.not_weak_order_after(i);
        }
        faults
    }

    // The juries whose ballot puts i before some j, and a third candidate is not after i and not before j.
    #[tactic(auto, using(crate::proofs::RankLaws::steps), unfolding(jury::specs::Rankings::not_weak_order_after))]
    fn not_weak_order_after(&self, i: usize) -> u64
        requires { i < self.now.candidates }
        ensures { (u : ℕ) → u < lane_count
            → lane u result ≡ cond (spec.not_weak_order_after self.now.candidates (lane_of u self.now.words.now)
            self.now.ballot i) 1 0 }
    {
        let mut faults: u64 = 0;
        for j in 0..self.candidates {
            let forth = self.puts_before(i, j);
            let third = self.neither_after_nor_before(i, j);
            faults |= forth & third;
        }
        faults
    }

    // The juries in which some candidate is not after i and not before j.
    #[tactic(auto, using(crate::proofs::RankLaws::steps), unfolding(jury::specs::Rankings::neither_after_nor_before))]
    fn neither_after_nor_before(&self, i: usize, j: usize) -> u64
        requires { (i < self.now.candidates) × (j < self.now.candidates) }
        ensures { (u : ℕ) → u < lane_count
            → lane u result ≡ cond (spec.neither_after_nor_before self.now.candidates
            (lane_of u self.now.words.now) self.now.ballot i j) 1 0 }
    {
        let mut found: u64 = 0;
        for l in 0..self.candidates {
            let after = self.puts_before(i, l);
            let ahead = self.puts_before(l, j);
            found |= (after ^ word::ALL) & (ahead ^ word::ALL);
        }
        found
    }

    // The juries whose ballot puts i strictly before j.
    #[tactic(auto, using(crate::proofs::RankLaws::steps))]
    fn puts_before(&self, i: usize, j: usize) -> u64
        requires { (i < self.now.candidates) × (j < self.now.candidates) }
        ensures { (u : ℕ) → u < lane_count
            → lane u result ≡ cond (spec.before self.now.candidates (lane_of u self.now.words.now)
            self.now.ballot i j) 1 0 }
    {
        self.words[(self.ballot * self.candidates + i) * self.candidates + j]
    }
}
