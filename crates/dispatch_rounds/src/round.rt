// A round: each unfinished jury, in order, does up to `gates_per_round` gates, the S of request 2.8.
ghost use Rattle.std.specs.Prelude.{◌≡◌, cond, List, ◌++◌, ℕ, suc, ◌+◌, ◌*◌, ◌≤◌, eqb, length, take, drop};
ghost use Rattle.dispatch_rounds.specs.Tables.{tables_of};
ghost use Rattle.dispatch_rounds.specs.Rounds.{RoundState};
ghost use Rattle.dispatch_rounds.specs.inner.State.{JuryState, TurnReady, RoundReady};

use crate::header::{JuryHeader, JuryNumbers, Places};

// Puts a jury's ballots into its wire table before its first gate.
fn load(given: usize, ballots: &[u8], wires: &mut [u8])
    requires { length ballots.now ≤ length wires.old }
    ensures { wires.new
        ≡ cond (eqb given 0)
        (take (length ballots.now) ballots.now
        ++ drop (length ballots.now) wires.old)
        wires.old }
{
    if given == 0 {
        basics::slice::copy(ballots, &mut wires[..ballots.len()]);
    }
}

// One jury's turn in a round, on its own pieces: its next gates, at most `gates_per_round` of them. After its last
// gate, the closing bytes are put on the board. Answers how many bits the jury has shown so far.
fn turn(
    header: JuryHeader,
    given: usize,
    gates_per_round: usize,
    shown: usize,
    list: &[u32],
    ballots: &[u8],
    tape: &[u8],
    wires: &mut [u8],
    board: &mut [u8],
) -> usize
    requires { TurnReady given gates_per_round header list.now ballots.now tape.now wires.old board.old shown }
    ensures { (ws bs : List ℕ) → let p = tables_of list.now ballots.now tape.now ws bs in
        JuryState given header p wires.old board.old shown
        → JuryState (given + gates_per_round) header p wires.new board.new result }
{
    let gates = header.gates;
    if gates <= given {
        return shown;
    }
    load(given, ballots, wires);
    let inputs = ballots.len();
    if gates - given <= gates_per_round {
        let last = gates::step::step(inputs, list, given, gates, tape, shown, wires, board);
        gates::step::close(header.candidates, wires, last, board);
        return last;
    }
    gates::step::step(
        inputs,
        list,
        given,
        given + gates_per_round,
        tape,
        shown,
        wires,
        board,
    )
}

// One more round after `done` rounds. `RoundState` says what the tables hold between two rounds: each jury's gates
// of all rounds so far, and nothing of a later gate. `before` has the number of bits that each jury has shown; the
// answer has their number after the round.
pub fn round(
    headers: &[JuryHeader],
    conditional: JuryNumbers,
    done: usize,
    gates_per_round: usize,
    before: JuryNumbers,
    lists: &[u32],
    ballots: &[u8],
    tapes: &[u8],
    wires: &mut [u8],
    boards: &mut [u8],
) -> JuryNumbers
    requires { RoundReady headers.now done gates_per_round lists.now ballots.now tapes.now conditional
        wires.old boards.old before }
    ensures { (ws bs : List ℕ) → let t = tables_of lists.now ballots.now tapes.now ws bs in
        RoundState (done * gates_per_round) headers.now t conditional wires.old boards.old before
        → RoundState (suc done * gates_per_round) headers.now t conditional wires.new boards.new result }
{
    let given = done * gates_per_round;
    let mut shown = before;
    let mut at = Places {
        lists: 0,
        ballots: 0,
        tapes: 0,
        wires: 0,
        boards: 0,
    };
    for (j, header) in headers.iter().enumerate() {
        let next = at.after(*header, conditional[j]);
        shown[j] = turn(
            *header,
            given,
            gates_per_round,
            shown[j],
            &lists[at.lists..next.lists],
            &ballots[at.ballots..next.ballots],
            &tapes[at.tapes..next.tapes],
            &mut wires[at.wires..next.wires],
            &mut boards[at.boards..next.boards],
        );
        at = next;
    }
    shown
}
