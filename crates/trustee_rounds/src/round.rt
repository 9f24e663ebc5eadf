// One round of one trustee. Nothing here is an entry point: the callers' tests establish what a `requires` asks.
ghost use Rattle.std.specs.Prelude.{◌≡◌, List, ℕ};
ghost use Rattle.gates.specs.Gate.{gates_of};
ghost use Rattle.trustee_rounds.specs.Rounds.{enters, publishes};
ghost use Rattle.trustee_rounds.specs.inner.Passes.{turn_by, EnterPass, PublishPass, RoundReady, Turned};

use crate::part;
use gate_levels::level;
use gates::gate::Gate;
use gates::kind;

// The trustee's number, the round, and how many inputs the list has.
#[derive(Clone, Copy)]
pub struct Seat {
    pub trustee: usize,
    pub round: usize,
    pub inputs: usize,
}

// Enters the parts of all gates of this round's level, in order.
fn enter(seat: Seat, table: &[u32], levels: &[u32], triples: &[u8], heard: &[u8], wires: &mut [u8])
    requires { EnterPass seat table.now levels.now triples.now heard.now wires.old }
    ensures { wires.new
        ≡ enters (turn_by seat levels.now triples.now heard.now)
        (gates_of table.now) 0 0 wires.old }
{
    let marks = kind::CONDITIONAL;
    let p = seat.trustee;
    let round = seat.round;
    let inputs = seat.inputs;
    let mut i = 0;
    for (g, entry) in levels.iter().enumerate() {
        let gate = Gate::at(table, g);
        let depth = level::rounds(*entry);
        part::enter_gate(
            &marks,
            p,
            round,
            depth,
            gate,
            inputs + g,
            i,
            triples,
            heard,
            wires,
        );
        i += kind::mark(&marks, gate.kind);
    }
}

// Publishes the masked factors of all conditional gates of the next level; their operands are known by now. The
// trustee's number and the sums that it heard are not needed.
fn publish(
    inputs: usize,
    round: usize,
    table: &[u32],
    levels: &[u32],
    triples: &[u8],
    wires: &[u8],
    published: &mut [u8],
)
    requires { PublishPass inputs round table.now levels.now triples.now wires.now published.old }
    ensures { (p : ℕ) (heard : List ℕ)
        → published.new
        ≡ publishes
        (record {
          trustee = p;
          round = round;
          inputs = inputs;
          levels = levels.now;
          triples = triples.now;
          heard = heard;
        }) wires.now (gates_of table.now) 0 0 published.old }
{
    let marks = kind::CONDITIONAL;
    let next = round + 1;
    let mut i = 0;
    for (g, entry) in levels.iter().enumerate() {
        let gate = Gate::at(table, g);
        let depth = level::rounds(*entry);
        part::publish_gate(&marks, next, depth, gate, i, triples, wires, published);
        i += kind::mark(&marks, gate.kind);
    }
}

// A whole round: it enters the parts of this level and publishes the factors of the next one; in the last round it
// also publishes the closing bits. The lent tables stay apart: each part of a round takes some of them.
pub fn round(
    seat: Seat,
    rounds: usize,
    conditional: usize,
    k: usize,
    table: &[u32],
    levels: &[u32],
    triples: &[u8],
    heard: &[u8],
    wires: &mut [u8],
    published: &mut [u8],
)
    requires { RoundReady seat conditional k table.now levels.now triples.now heard.now wires.old published.old }
    ensures { Turned seat rounds conditional k table.now levels.now triples.now
        heard.now wires.old published.old wires.new published.new }
{
    enter(seat, table, levels, triples, heard, wires);
    let at = seat.round;
    publish(seat.inputs, at, table, levels, triples, wires, published);
    if at != rounds {
        return;
    }
    gates::step::close(k, wires, 2 * conditional, published);
}
