// The entry point [trustee-finish].
ghost use Rattle.std.specs.Prelude.{◌≡◌};
ghost use Rattle.tally.specs.Answer.{outcome_of};
ghost use Rattle.trustee_alone.specs.Finish.{finish_result};

use jury::reason::Refusal;
use jury::shape::Shape;
use tally::answer::Answer;

// Empties a trustee's wire parts, which together with those of the other trustees would reveal every wire (request
// 2.13).
pub fn finish(shape: Shape, table: &[u32], wires: &mut [u8]) -> Answer
    ensures { record { answer = outcome_of result; wires = wires.new }
        ≡ finish_result shape table.now wires.old }
{
    let size = tally::test::test(shape, table)?;
    let inputs = shape.ballot_bytes();
    if !gates::lengths::has_length(wires, inputs, size.gates) {
        return Err(Refusal::PartTables);
    }
    wires.fill(0);
    Ok(size)
}
