// The rehearsal of a jury: its own list is written, then run on lent buffers.
ghost use Rattle.std.specs.Prelude.{◌≡◌, cond, get_or, Ok, Err};
ghost use Rattle.jury.specs.Shape.{within_limits};
ghost use Rattle.rehearsal.specs.Rehearsal.{shape_of_input, rehearsal_outcome};
ghost use Rattle.rehearsal.specs.inner.Buffers.{Buffers, Ready, Cut};
ghost use Rattle.rehearsal.specs.inner.Rehearses.{Rehearses, ballots_outcome};

use gates::list::ListSize;
use jury::reason::Refusal;
use jury::shape::Shape;

// The shape of an accepted jury, and the place of its closing bytes on the board.
#[derive(Clone, Copy)]
pub struct Winners {
    pub shape: Shape,
    pub first: usize,
}

// A byte of the input, 0 if it is missing.
fn byte(input: &[u8], i: usize) -> usize
    ensures { result ≡ get_or input.now i 0 }
{
    input.get(i).map_or(0, |byte| usize::from(*byte))
}

// The shape in the first three bytes, or why it is refused.
fn shape(input: &[u8]) -> Result<Shape, Refusal>
    ensures { result ≡ cond (within_limits (shape_of_input input.now)) (Ok (shape_of_input input.now))
        (Err Refusal.Shape) }
{
    Shape::new(byte(input, 0), byte(input, 1), byte(input, 2))
}

// Runs the list that was written, with list, tape, wire table and board cut to their lengths.
fn run_list(
    shape: Shape,
    list: &[u32],
    ballots: &[u8],
    size: ListSize,
    tape: &[u8],
    wires: &mut [u8],
    board: &mut [u8],
) -> Result<Winners, Refusal>
    requires { Cut shape list.now size.gates size.conditional tape.now wires.old board.old }
    ensures { Rehearses (ballots_outcome shape ballots.now) board.new result }
{
    let ran = tally::run::run(
        shape,
        list,
        ballots,
        &tape[..size.conditional],
        &mut wires[..shape.ballot_bytes() + size.gates],
        &mut board[..size.conditional + shape.candidates],
    )?;
    Ok(Winners {
        shape,
        first: ran.conditional,
    })
}

// Writes the list of the input's shape and runs it.
fn rehearse_shape(
    shape: Shape,
    input: &[u8],
    table: &mut [u32],
    tape: &[u8],
    wires: &mut [u8],
    board: &mut [u8],
) -> Result<Winners, Refusal>
    requires { Ready shape input.now table.old tape.now wires.old board.old }
    ensures { Rehearses (rehearsal_outcome input.now table.old) board.new result }
{
    let size = tally::write::write(shape, table)?;
    let list = &table[..4 * size.gates];
    let ballots = input.get(3..).unwrap_or(&[]);
    run_list(shape, list, ballots, size, tape, wires, board)
}

// Rehearses the jury of an input.
pub fn rehearse(
    input: &[u8],
    table: &mut [u32],
    tape: &[u8],
    wires: &mut [u8],
    board: &mut [u8],
) -> Result<Winners, Refusal>
    requires { Buffers table.old tape.now wires.old board.old }
    ensures { Rehearses (rehearsal_outcome input.now table.old) board.new result }
{
    let shape = shape(input)?;
    rehearse_shape(shape, input, table, tape, wires, board)
}
