// The entry point [write].
ghost use Rattle.tally.specs.Answer.{outcome_of};
ghost use Rattle.tally.specs.Write.{Writes};

use crate::answer::Answer;
use gates::list::ListSize;
use jury::reason::Refusal;
use jury::shape::Shape;

// Writes the own list of a shape into a table that is long enough. The list depends only on the shape.
pub fn write(shape: Shape, table: &mut [u32]) -> Answer
    ensures { Writes shape table.old (outcome_of result) table.new }
{
    if !shape.is_within_limits() {
        return Err(Refusal::Shape);
    }
    // The list is measured first, so that a refusal leaves the table as it was. The length is divided by four,
    // because a product would first have to be shown not to wrap.
    if table.len() / 4 < crate::own::gates(shape) {
        return Err(Refusal::Table);
    }
    let end = crate::own::own_list(shape, table);
    Ok(ListSize {
        gates: end.gate,
        conditional: end.conditional,
    })
}
