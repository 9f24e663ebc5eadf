// The entry point that reads a list from its text.
ghost use Rattle.std.specs.Prelude.{◌≡◌};
ghost use Rattle.text.specs.Answer.{length_outcome};
ghost use Rattle.text.specs.Read.{read_text_result};

use crate::answer::{Answer, TextRefusal};
use crate::scan;
use gates::list::MOST_GATES;
use jury::reason::Refusal;
use jury::shape::Shape;

// Reads a text as a list for a shape: four numbers for each line, with 0 for unused operands.
pub fn read(shape: Shape, text: &[u8], output: &mut [u32]) -> Answer
    ensures { record { answer = length_outcome result; output = output.new }
        ≡ read_text_result shape text.now output.old }
{
    if !shape.is_within_limits() {
        return Err(TextRefusal::OfList(Refusal::Shape));
    }
    let lines = scan::line_count(text);
    if lines < shape.candidates {
        return Err(TextRefusal::OfList(Refusal::Table));
    }
    if MOST_GATES < lines {
        return Err(TextRefusal::OfList(Refusal::Table));
    }
    if let Some(i) = scan::first_malformed(text) {
        return Err(TextRefusal::Line(i));
    }
    if let Some(g) = scan::first_bad(shape.ballot_bytes(), text) {
        return Err(TextRefusal::OfList(Refusal::Gate(g)));
    }
    if output.len() < 4 * lines {
        return Err(TextRefusal::Output);
    }
    scan::put_gates(text, output);
    Ok(4 * lines)
}
