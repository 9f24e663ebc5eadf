// The five entry points, for C.
ghost use Rattle.std.specs.Prelude.{◌≡◌, [], ◌∷◌};
ghost use Rattle.c_answers.specs.Numbers.{shape_of};
ghost use Rattle.c_tally.specs.Calls.{measure_call, WriteLeaves, test_call, run_call, count_call};

// Measures the own list of a shape. Answers reason, place, G, C and I.
#[unsafe(no_mangle)]
pub extern "C" fn jugy_measure(
    candidates: usize,
    grades: usize,
    ballots: usize,
    answer: &mut [usize],
) -> usize
    ensures { record { returned = result; answer = answer.new; lent = [] }
        ≡ measure_call (shape_of candidates grades ballots) answer.old }
{
    c_tally::measure::jugy_measure(candidates, grades, ballots, answer)
}

// Writes the own list of a shape. Answers reason, place, G and C.
#[unsafe(no_mangle)]
pub extern "C" fn jugy_write(
    candidates: usize,
    grades: usize,
    ballots: usize,
    table: &mut [u32],
    answer: &mut [usize],
) -> usize
    ensures { WriteLeaves (shape_of candidates grades ballots) table.old answer.old
        (record { returned = result; answer = answer.new; lent = table.new ∷ [] }) }
{
    c_tally::write::jugy_write(candidates, grades, ballots, table, answer)
}

// Tests any list for a shape. Answers reason, place, G and C.
#[unsafe(no_mangle)]
pub extern "C" fn jugy_test(
    candidates: usize,
    grades: usize,
    ballots: usize,
    table: &[u32],
    answer: &mut [usize],
) -> usize
    ensures { record { returned = result; answer = answer.new; lent = [] }
        ≡ test_call (shape_of candidates grades ballots) table.now answer.old }
{
    c_tally::test::jugy_test(candidates, grades, ballots, table, answer)
}

// Runs a list on ballots. Answers reason, place, G and C.
#[unsafe(no_mangle)]
pub extern "C" fn jugy_run(
    candidates: usize,
    grades: usize,
    ballots: usize,
    table: &[u32],
    bytes: &[u8],
    tape: &[u8],
    wires: &mut [u8],
    board: &mut [u8],
    answer: &mut [usize],
) -> usize
    ensures { record {
      returned = result;
      answer = answer.new;
      lent = wires.new ∷ board.new ∷ [];
    } ≡ run_call (shape_of candidates grades ballots) table.now bytes.now tape.now
        wires.old board.old answer.old }
{
    c_tally::run::jugy_run(
        candidates, grades, ballots, table, bytes, tape, wires, board, answer,
    )
}

// Counts without a circuit. Answers reason, place and the eight closing bytes.
#[unsafe(no_mangle)]
pub extern "C" fn jugy_count(
    candidates: usize,
    grades: usize,
    ballots: usize,
    bytes: &[u8],
    answer: &mut [usize],
) -> usize
    ensures { record { returned = result; answer = answer.new; lent = [] }
        ≡ count_call (shape_of candidates grades ballots) bytes.now answer.old }
{
    c_tally::count::jugy_count(candidates, grades, ballots, bytes, answer)
}
