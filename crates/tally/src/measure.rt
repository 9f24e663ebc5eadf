// The entry point [measure].
ghost use Rattle.std.specs.Prelude.{◌≡◌};
ghost use Rattle.tally.specs.Measure.{measured_by, measure_outcome};

use jury::reason::Refusal;
use jury::shape::Shape;

// G, C and I of the own list.
#[derive(Clone, Copy)]
pub struct Measures {
    pub gates: usize,
    pub conditional: usize,
    pub inputs: usize,
}

// Measures the own list of a shape. Nothing is lent.
pub fn measure(shape: Shape) -> Result<Measures, Refusal>
    ensures { measured_by result ≡ measure_outcome shape }
{
    if !shape.is_within_limits() {
        return Err(Refusal::Shape);
    }
    let end = crate::own::measure(shape);
    Ok(Measures {
        gates: end.gate,
        conditional: end.conditional,
        inputs: shape.ballot_bytes(),
    })
}
