// Lists as text, for C.
ghost use Rattle.std.specs.Prelude.{◌≡◌, [], ◌∷◌};
ghost use Rattle.c_answers.specs.Numbers.{shape_of};
ghost use Rattle.c_text.specs.Calls.{write_text_call, read_text_call};

// Writes any list as text. Answers reason, place and the number of characters written.
#[unsafe(no_mangle)]
pub extern "C" fn jugy_write_text(
    candidates: usize,
    grades: usize,
    ballots: usize,
    table: &[u32],
    output: &mut [u8],
    answer: &mut [usize],
) -> usize
    ensures { record { returned = result; answer = answer.new; lent = output.new ∷ [] }
        ≡ write_text_call (shape_of candidates grades ballots) table.now output.old
        answer.old }
{
    c_text::calls::jugy_write_text(candidates, grades, ballots, table, output, answer)
}

// Reads a text as a list. Answers reason, place and how many numbers were written.
#[unsafe(no_mangle)]
pub extern "C" fn jugy_read_text(
    candidates: usize,
    grades: usize,
    ballots: usize,
    text: &[u8],
    output: &mut [u32],
    answer: &mut [usize],
) -> usize
    ensures { record { returned = result; answer = answer.new; lent = output.new ∷ [] }
        ≡ read_text_call (shape_of candidates grades ballots) text.now output.old
        answer.old }
{
    c_text::calls::jugy_read_text(candidates, grades, ballots, text, output, answer)
}
