// The season sheet: the sums over all runs of a season.
ghost use Rattle.std.specs.Prelude.{◌≡◌, ◌*◌, ◌≤◌, length};
ghost use Rattle.season.specs.Season.{run_bytes, most_runs, runs_in, first_bad_run, totals_of, sheet_reason_of, Sheet};
ghost use Rattle.season.specs.inner.Sums.{plus_run, PlusReady};

use crate::run::{RUN_BYTES, Run};
use jury::reason::Numbered;

// The most bytes of a sheet: 4,096 runs.
pub const MOST_BYTES: usize = 49152;

// The totals of a sheet: the number of runs; the sums of their gates, conditional gates and ballots; and how many
// runs have several winners.
#[derive(Drop)]
pub struct Totals {
    pub runs: usize,
    pub gates: usize,
    pub conditional: usize,
    pub ballots: usize,
    pub shared: usize,
}

// Why a sheet is refused: its length, or its first bad run.
#[derive(Clone, Copy)]
pub enum Refusal {
    Length,
    BadRun(usize),
}

impl Numbered for Refusal {
    ghost told = { sheet_reason_of };

    #[tactic(auto, unfolding(crate::specs::Season::sheet_reason_of, jury::specs::Reason::reason_at))]
    fn number(self) -> usize {
        match self {
            Refusal::Length => 21,
            Refusal::BadRun(_) => 22,
        }
    }

    #[tactic(auto, unfolding(crate::specs::Season::sheet_reason_of, jury::specs::Reason::reason_at))]
    fn place(self) -> usize {
        match self {
            Refusal::Length => 0,
            Refusal::BadRun(i) => i,
        }
    }
}

impl Totals {
    // The totals with one more run. There are so few runs that no sum wraps.
    fn plus(self, run: Run) -> Totals
        requires { PlusReady self run }
        ensures { result ≡ plus_run self run }
    {
        let mut shared = self.shared;
        if run.is_shared() {
            shared += 1;
        }
        Totals {
            runs: self.runs + 1,
            gates: self.gates + run.gates,
            conditional: self.conditional + run.conditional,
            ballots: self.ballots + run.ballots,
            shared,
        }
    }
}

// The place of the first bad run.
fn first_bad(bytes: &[u8]) -> Option<usize>
    ensures { result ≡ first_bad_run 0 (runs_in bytes.now) }
{
    for (i, run) in bytes.chunks_exact(RUN_BYTES).enumerate() {
        if !Run::read(run).is_good() {
            return Some(i);
        }
    }
    None
}

// The totals of all runs.
fn sums(bytes: &[u8]) -> Totals
    requires { length bytes.now ≤ most_runs * run_bytes }
    ensures { result ≡ totals_of (runs_in bytes.now) }
{
    let mut totals = Totals {
        runs: 0,
        gates: 0,
        conditional: 0,
        ballots: 0,
        shared: 0,
    };
    for run in bytes.chunks_exact(RUN_BYTES) {
        totals = totals.plus(Run::read(run));
    }
    totals
}

// The totals of a season's bytes, which may be anything, or why they are refused. The length is tested before any run
// is read.
pub fn sheet(bytes: &[u8]) -> Result<Totals, Refusal>
    ensures { Sheet bytes.now result }
{
    if bytes.len() % RUN_BYTES != 0 {
        return Err(Refusal::Length);
    }
    if MOST_BYTES < bytes.len() {
        return Err(Refusal::Length);
    }
    match first_bad(bytes) {
        Some(i) => Err(Refusal::BadRun(i)),
        None => Ok(sums(bytes)),
    }
}
