// The entry point [count].
ghost use Rattle.std.specs.Prelude.{◌≡◌};
ghost use Rattle.jury.specs.Accepted.{AcceptedBallots};
ghost use Rattle.jury.specs.ClosingBytes.{eight_bytes};
ghost use Rattle.tally.specs.Rule.{closing_for};
ghost use Rattle.tally.specs.Count.{Counts, count_refused, count_bytes};

use jury::reason::Refusal;
use jury::shape::{ClosingBytes, Shape};

// Counts the ballots of a jury, and answers its closing bytes: 0 after the first k. The shape may have any numbers:
// they are tested.
pub fn count(shape: Shape, ballots: &[u8]) -> Result<ClosingBytes, Refusal>
    ensures { Counts shape ballots.now (count_refused result) (count_bytes result) }
{
    if !shape.is_within_limits() {
        return Err(Refusal::Shape);
    }
    jury::ballots::test(shape, ballots)?;
    Ok(closing_bytes(shape, ballots))
}

// The closing bytes of accepted ballots, by the rule of the shape's kind.
fn closing_bytes(shape: Shape, ballots: &[u8]) -> ClosingBytes
    requires { AcceptedBallots shape ballots.now }
    ensures { result ≡ eight_bytes (closing_for shape ballots.now) }
{
    if shape.is_ranking() {
        rule_schulze::count::closing_bytes(ballots, shape.candidates, shape.ballots)
    } else {
        let counts = jury::counts::counts(shape, ballots);
        rule_judgment::rule::winners(shape, &counts)
    }
}
