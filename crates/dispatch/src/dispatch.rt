// The entry point of the dispatcher.
ghost use Rattle.std.specs.Prelude.{◌≡◌, ◌&&◌, leb};
ghost use Rattle.dispatch_rounds.specs.Tables.{Tables, tables_of};
ghost use Rattle.dispatch.specs.Reasons.{verdict_reason, rounds_in};
ghost use Rattle.dispatch_rounds.specs.Rounds.{eight_of, rounds_for};
ghost use Rattle.dispatch.specs.Result.{DispatchResult, dispatch_result};
ghost use Rattle.dispatch.specs.inner.Rounds.{Ready, RoundsSmall, RoundsFinished, longest_list};

use crate::refusal::JuryRefusal;
use crate::tests::test_juries;
use dispatch_rounds::header::{Headers, JuryHeader, JuryNumbers, MOST_JURIES};
use dispatch_rounds::round::round;
use jury::reason::Refusal;

pub const LEAST_JURIES: usize = 1;

pub const LEAST_GATES_PER_ROUND: usize = 1;

pub const MOST_GATES_PER_ROUND: usize = 65536;

// Whether least ≤ n ≤ most.
fn is_between(least: usize, n: usize, most: usize) -> bool
    ensures { result ≡ (leb least n && leb n most) }
{
    least <= n && n <= most
}

// The number of gates of the longest list.
fn longest_list(headers: &[JuryHeader]) -> usize
    ensures { result ≡ longest_list headers.now }
{
    let mut most = 0usize;
    for header in headers {
        most = most.max(header.gates);
    }
    most
}

// How many rounds each jury takes. This does not depend on the other juries.
fn rounds_of(headers: &[JuryHeader], gates_per_round: usize) -> JuryNumbers
    requires { RoundsSmall headers.now gates_per_round }
    ensures { (t : Tables)
        → result ≡ eight_of (λ (s : JuryHeader) (p : Tables). rounds_for s.gates gates_per_round)
        headers.now t }
{
    let mut rounds = [0usize; MOST_JURIES];
    for (j, header) in headers.iter().enumerate() {
        rounds[j] = header.gates.div_ceil(gates_per_round);
    }
    rounds
}

// Does one round after the other until the longest jury is finished.
fn run_rounds(
    headers: &[JuryHeader],
    conditional: JuryNumbers,
    gates_per_round: usize,
    lists: &[u32],
    ballots: &[u8],
    tapes: &[u8],
    wires: &mut [u8],
    boards: &mut [u8],
)
    requires { Ready headers.now gates_per_round (tables_of lists.now ballots.now tapes.now wires.old boards.old)
        conditional }
    ensures { RoundsFinished headers.now gates_per_round
        (tables_of lists.now ballots.now tapes.now wires.old boards.old) conditional
        wires.new boards.new }
{
    let most = longest_list(headers);
    let mut shown = [0usize; MOST_JURIES];
    let mut done = 0;
    // A `while`: the gates done are compared, not the rounds.
    while done * gates_per_round < most {
        let after = round(
            headers,
            conditional,
            done,
            gates_per_round,
            shown,
            lists,
            ballots,
            tapes,
            wires,
            boards,
        );
        shown = after;
        done += 1;
    }
}

// Runs up to eight juries in rounds. The juries' pieces follow each other in the five tables; headers past the
// number of juries are not read. At the end the juries' wires are emptied. Answers how many rounds each jury took, 0
// past the last jury. The five tables stay apart, as C lends them.
pub fn dispatch(
    count: usize,
    headers: Headers,
    gates_per_round: usize,
    lists: &[u32],
    ballots: &[u8],
    tapes: &[u8],
    wires: &mut [u8],
    boards: &mut [u8],
) -> Result<JuryNumbers, JuryRefusal>
    ensures { ◌≡◌ {A = DispatchResult}
        (record {
          reason = verdict_reason result;
          rounds = rounds_in result;
          wires = wires.new;
          boards = boards.new;
        })
        (dispatch_result (record {
          count = count;
          headers = headers;
          gates_per_round = gates_per_round;
          tables = tables_of lists.now ballots.now tapes.now wires.old
              boards.old;
        })) }
{
    if !is_between(LEAST_JURIES, count, MOST_JURIES) {
        return Err(JuryRefusal {
            reason: Refusal::Juries,
            jury: 0,
        });
    }
    if !is_between(LEAST_GATES_PER_ROUND, gates_per_round, MOST_GATES_PER_ROUND) {
        return Err(JuryRefusal {
            reason: Refusal::GatesPerRound,
            jury: 0,
        });
    }
    let juries = &headers[..count];
    let tested = test_juries(juries, lists, ballots, tapes, wires, boards)?;
    run_rounds(
        juries,
        tested.conditional,
        gates_per_round,
        lists,
        ballots,
        tapes,
        wires,
        boards,
    );
    wires[..tested.wires].fill(0);
    Ok(rounds_of(juries, gates_per_round))
}
