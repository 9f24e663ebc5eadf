// The entry point [levels].
ghost use Rattle.std.specs.Prelude.{◌≡◌};
ghost use Rattle.levels.specs.Answer.{depths_outcome};
ghost use Rattle.levels.specs.Levels.{levels_result};

use crate::answer::{Answer, Depths, LevelRefusal};
use gate_levels::level;
use jury::shape::Shape;

// Writes the level of each gate of a list, whoever wrote the list.
pub fn write(shape: Shape, table: &[u32], levels: &mut [u32]) -> Answer
    ensures { record { answer = depths_outcome result; levels = levels.new }
        ≡ levels_result shape table.now levels.old }
{
    let size = tally::test::test(shape, table)?;
    if levels.len() != size.gates {
        return Err(LevelRefusal::Levels);
    }
    let rounds = level::write(shape.ballot_bytes(), table, levels);
    Ok(Depths {
        gates: size.gates,
        conditional: size.conditional,
        rounds,
    })
}
