// The own list of a shape, graded or ranked.
ghost use Rattle.std.specs.Prelude.{◌≡◌, T, length};
ghost use Rattle.gate_words.specs.Writing.{Wrote};
ghost use Rattle.jury.specs.Shape.{within_limits, ballot_bytes};
ghost use Rattle.tally.specs.OwnList.{own_list};
ghost use Rattle.tally.specs.inner.OwnSize.{OwnSize};

use gate_words::writer::Writer;
use jury::shape::Shape;

// Writes the list at the start of the table, as far as it fits. The writer counts all gates and all conditional
// gates, however short the table is.
pub fn own_list(shape: Shape, table: &mut [u32]) -> Writer
    requires { T (within_limits shape) }
    ensures { Wrote (record { gate = 0; wire = ballot_bytes shape; conditional = 0 }) table.old (own_list shape)
        table.new result }
{
    if shape.is_ranking() {
        // Casts: the limits of a ranking make both numbers fit, and a `try_from` would ask for an error.
        ranked_writer::list::ranked_list(shape.candidates as u32, shape.ballots as u32, table)
    } else {
        graded_writer::list::own_list(shape, table)
    }
}

// G and C of the list: the writer counts them even if its table is empty.
pub fn measure(shape: Shape) -> Writer
    requires { T (within_limits shape) }
    ensures { OwnSize shape result }
{
    own_list(shape, &mut [])
}

// Only G. For grades it is computed as the sum of the sizes of the circuit's parts, without writing anything.
pub fn gates(shape: Shape) -> usize
    requires { T (within_limits shape) }
    ensures { result ≡ length (own_list shape) }
{
    if shape.is_ranking() {
        return measure(shape).gate;
    }
    graded_size::list::gates(shape)
}
