// Lists as text, for C.
ghost use Rattle.std.specs.Prelude.{◌≡◌, [], ◌∷◌, ◌≤◌, length};
ghost use Rattle.text.specs.Answer.{length_outcome};
ghost use Rattle.c_answers.specs.Numbers.{one_answer, one_numbers, shape_of};
ghost use Rattle.c_answers.specs.inner.Puts.{Puts};
ghost use Rattle.c_text.specs.Calls.{write_text_call, read_text_call};

use c_answers::array::{ONE_ANSWER, SHORT_ANSWER, one, put};
use jury::shape::Shape;
use text::answer::TextRefusal;

// Puts reason, place and the length of what was written, and returns the status.
fn put_length(outcome: Result<usize, TextRefusal>, answer: &mut [usize]) -> usize
    requires { one_answer ≤ length answer.old }
    ensures { Puts one_answer (one_numbers (length_outcome outcome)) answer.old answer.new result }
{
    put(outcome.map(one), answer)
}

// Writes any list as text. Answers reason, place and the number of characters written.
pub fn jugy_write_text(
    candidates: usize,
    grades: usize,
    ballots: usize,
    table: &[u32],
    output: &mut [u8],
    answer: &mut [usize],
) -> usize
    ensures { record { returned = result; answer = answer.new; lent = output.new ∷ [] }
        ≡ write_text_call (shape_of candidates grades ballots) table.now output.old
        answer.old }
{
    if answer.len() < ONE_ANSWER {
        return SHORT_ANSWER;
    }
    let shape = match Shape::new(candidates, grades, ballots) {
        Ok(shape) => shape,
        Err(reason) => return put_length(Err(TextRefusal::OfList(reason)), answer),
    };
    let outcome = text::write::write(shape, table, output);
    put_length(outcome, answer)
}

// Reads a text as a list. Answers reason, place and how many numbers were written.
pub fn jugy_read_text(
    candidates: usize,
    grades: usize,
    ballots: usize,
    text: &[u8],
    output: &mut [u32],
    answer: &mut [usize],
) -> usize
    ensures { record { returned = result; answer = answer.new; lent = output.new ∷ [] }
        ≡ read_text_call (shape_of candidates grades ballots) text.now output.old
        answer.old }
{
    if answer.len() < ONE_ANSWER {
        return SHORT_ANSWER;
    }
    let shape = match Shape::new(candidates, grades, ballots) {
        Ok(shape) => shape,
        Err(reason) => return put_length(Err(TextRefusal::OfList(reason)), answer),
    };
    let outcome = text::read::read(shape, text, output);
    put_length(outcome, answer)
}
