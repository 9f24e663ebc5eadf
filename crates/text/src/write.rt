// The entry point that writes a list as text.
ghost use Rattle.std.specs.Prelude.{◌≡◌, ◌≤◌, length};
ghost use Rattle.std.proofs.lemmas.List.Edits.{sets};
ghost use Rattle.gates.specs.Gate.{gates_of};
ghost use Rattle.gates.specs.Test.{most_gates};
ghost use Rattle.text.specs.Text.{text_of};
ghost use Rattle.text.specs.Answer.{length_outcome};
ghost use Rattle.text.specs.Write.{write_text_result};

use crate::answer::{Answer, TextRefusal};
use gates::gate::Gate;
use jury::shape::Shape;
use text_lines::print;

// How many characters the text of a table's gates has.
fn text_length(table: &[u32]) -> usize
    requires { length (gates_of table.now) ≤ most_gates }
    ensures { result ≡ length (text_of (gates_of table.now)) }
{
    let mut total: usize = 0;
    for g in 0..table.len() / 4 {
        let gate = Gate::at(table, g);
        total += print::line_length(gate);
    }
    total
}

// Puts the text of a table's gates into the output.
fn put_text(table: &[u32], output: &mut [u8])
    requires { length (text_of (gates_of table.now)) ≤ length output.old }
    ensures { output.new ≡ sets output.old 0 (text_of (gates_of table.now)) }
{
    let mut place = 0;
    for g in 0..table.len() / 4 {
        let gate = Gate::at(table, g);
        place = print::put_line(gate, place, output);
    }
}

// Writes a list for a shape as text, whoever wrote the list.
pub fn write(shape: Shape, table: &[u32], output: &mut [u8]) -> Answer
    ensures { record { answer = length_outcome result; output = output.new }
        ≡ write_text_result shape table.now output.old }
{
    tally::test::test(shape, table)?;
    let length = text_length(table);
    if output.len() < length {
        return Err(TextRefusal::Output);
    }
    put_text(table, output);
    Ok(length)
}
