// The entry point [test].
ghost use Rattle.std.specs.Prelude.{◌≡◌};
ghost use Rattle.tally.specs.Answer.{outcome_of};
ghost use Rattle.tally.specs.Test.{test_outcome};

use crate::answer::Answer;
use jury::reason::Refusal;
use jury::shape::Shape;

// Tests a list for a shape, whoever wrote it.
pub fn test(shape: Shape, table: &[u32]) -> Answer
    ensures { outcome_of result ≡ test_outcome shape table.now }
{
    if !shape.is_within_limits() {
        return Err(Refusal::Shape);
    }
    let size = gates::list::test(shape.ballot_bytes(), shape.candidates, table)?;
    Ok(size)
}
