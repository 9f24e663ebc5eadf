// The dispatcher, for C.
ghost use Rattle.std.specs.Prelude.{◌≡◌, [], ◌∷◌};
ghost use Rattle.dispatch_rounds.specs.Tables.{tables_of};
ghost use Rattle.c_dispatch.specs.Numbers.{headers_in, dispatch_call};

// Runs up to eight juries in rounds. Answers reason, place and eight numbers of rounds.
#[unsafe(no_mangle)]
pub extern "C" fn jugy_dispatch(
    count: usize,
    gates_per_round: usize,
    headers: &[usize],
    lists: &[u32],
    ballots: &[u8],
    tapes: &[u8],
    wires: &mut [u8],
    boards: &mut [u8],
    answer: &mut [usize],
) -> usize
    ensures { record {
      returned = result;
      answer = answer.new;
      lent = wires.new ∷ boards.new ∷ [];
    } ≡ dispatch_call (record {
      count = count;
      headers = headers_in headers.now;
      gates_per_round = gates_per_round;
      tables = tables_of lists.now ballots.now tapes.now wires.old
          boards.old;
    }) answer.old }
{
    c_dispatch::by_rounds::jugy_dispatch(
        count,
        gates_per_round,
        headers,
        lists,
        ballots,
        tapes,
        wires,
        boards,
        answer,
    )
}
