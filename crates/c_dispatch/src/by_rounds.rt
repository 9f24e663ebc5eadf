// The dispatcher, for C.
ghost use Rattle.std.specs.Prelude.{◌≡◌, [], ◌∷◌, ◌<◌, get_or};
ghost use Rattle.dispatch_rounds.specs.Tables.{tables_of};
ghost use Rattle.dispatch_rounds.specs.Rounds.{most_juries};
ghost use Rattle.c_dispatch.specs.Numbers.{header_at, headers_in, dispatch_call};

use c_answers::array::{SHORT_ANSWER, put};
use dispatch_rounds::header::{Headers, JuryHeader, MOST_JURIES};

// How long an answer is: reason, place, and `MOST_JURIES` numbers of rounds.
const DISPATCH_ANSWER: usize = 2 + MOST_JURIES;

// Number i of an array, or 0 past its end.
fn number_at(numbers: &[usize], i: usize) -> usize
    ensures { result ≡ get_or numbers.now i 0 }
{
    numbers.get(i).copied().unwrap_or(0)
}

// Jury j's header.
fn header_at(numbers: &[usize], j: usize) -> JuryHeader
    requires { j < most_juries }
    ensures { result ≡ header_at numbers.now j }
{
    let at = 4 * j;
    JuryHeader {
        candidates: number_at(numbers, at),
        grades: number_at(numbers, at + 1),
        ballots: number_at(numbers, at + 2),
        gates: number_at(numbers, at + 3),
    }
}

// The eight headers, four numbers each. A number past the end of the array is 0, so a missing header is refused for
// reason 1. They are spelled out: a loop is no plainer, since it needs an array of headers to begin with.
fn headers_in(numbers: &[usize]) -> Headers
    ensures { result ≡ headers_in numbers.now }
{
    [
        header_at(numbers, 0),
        header_at(numbers, 1),
        header_at(numbers, 2),
        header_at(numbers, 3),
        header_at(numbers, 4),
        header_at(numbers, 5),
        header_at(numbers, 6),
        header_at(numbers, 7),
    ]
}

// Runs up to eight juries in rounds. Answers reason, place and eight numbers of rounds.
pub fn jugy_dispatch(
    count: usize,
    gates_per_round: usize,
    headers: &[usize],
    lists: &[u32],
    ballots: &[u8],
    tapes: &[u8],
    wires: &mut [u8],
    boards: &mut [u8],
    answer: &mut [usize],
) -> usize
    ensures { record {
      returned = result;
      answer = answer.new;
      lent = wires.new ∷ boards.new ∷ [];
    } ≡ dispatch_call (record {
      count = count;
      headers = headers_in headers.now;
      gates_per_round = gates_per_round;
      tables = tables_of lists.now ballots.now tapes.now wires.old
          boards.old;
    }) answer.old }
{
    if answer.len() < DISPATCH_ANSWER {
        return SHORT_ANSWER;
    }
    let outcome = dispatch::dispatch::dispatch(
        count,
        headers_in(headers),
        gates_per_round,
        lists,
        ballots,
        tapes,
        wires,
        boards,
    );
    put(outcome, answer)
}
