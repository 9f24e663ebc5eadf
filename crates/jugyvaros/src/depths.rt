// The levels of a list, for C.
ghost use Rattle.std.specs.Prelude.{◌≡◌, [], ◌∷◌};
ghost use Rattle.c_answers.specs.Numbers.{shape_of};
ghost use Rattle.c_levels.specs.Calls.{levels_call};

// Writes the level of each gate of any list. Answers reason, place, G, C and R.
#[unsafe(no_mangle)]
pub extern "C" fn jugy_levels(
    candidates: usize,
    grades: usize,
    ballots: usize,
    table: &[u32],
    levels: &mut [u32],
    answer: &mut [usize],
) -> usize
    ensures { record { returned = result; answer = answer.new; lent = levels.new ∷ [] }
        ≡ levels_call (shape_of candidates grades ballots) table.now levels.old
        answer.old }
{
    c_levels::calls::jugy_levels(candidates, grades, ballots, table, levels, answer)
}
