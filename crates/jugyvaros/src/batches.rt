// Running a list for 64 juries at once, for C.
ghost use Rattle.std.specs.Prelude.{◌≡◌, [], ◌∷◌};
ghost use Rattle.c_answers.specs.Numbers.{shape_of};
ghost use Rattle.c_batch.specs.Calls.{batch_call};

// Runs a list for 64 juries; bit j of each word is jury j's. Answers reason, place, G and C.
#[unsafe(no_mangle)]
pub extern "C" fn jugy_run_batch(
    candidates: usize,
    grades: usize,
    ballots: usize,
    table: &[u32],
    words: &[u64],
    tape: &[u64],
    wires: &mut [u64],
    board: &mut [u64],
    answer: &mut [usize],
) -> usize
    ensures { record {
      returned = result;
      answer = answer.new;
      lent = wires.new ∷ board.new ∷ [];
    } ≡ batch_call (record {
      shape = shape_of candidates grades ballots;
      table = table.now;
      ballots = words.now;
      tape = tape.now;
      wires = wires.old;
      board = board.old;
    }) answer.old }
{
    c_batch::run::jugy_run_batch(
        candidates, grades, ballots, table, words, tape, wires, board, answer,
    )
}
