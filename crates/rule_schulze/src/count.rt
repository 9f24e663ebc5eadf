// The plain count of a ranked jury.
ghost use Rattle.std.specs.Prelude.{◌≡◌};
ghost use Rattle.jury.specs.ClosingBytes.{eight_bytes};
ghost use Rattle.rule_schulze.specs.Schulze.{schulze_of};
ghost use Rattle.rule_schulze.specs.Votes as spec;
ghost use Rattle.rule_schulze.specs.inner.Tables.{RankedSize};

use crate::{rule, votes};
use jury::shape::ClosingBytes;

// The closing bytes of n ranked ballots of k candidates.
pub fn closing_bytes(ballots: &[u8], k: usize, n: usize) -> ClosingBytes
    requires { RankedSize k n ballots.now }
    ensures { result ≡ eight_bytes (schulze_of (spec.votes k n ballots.now) k) }
{
    rule::winners(votes::matrix(ballots, k, n), k)
}
