// The evaluation of a whole list by trustees. Nothing here is an entry point: the callers' tests establish what a
// `requires` asks.
ghost use Rattle.trustee_gates.specs.inner.Evaluate.{RunReady, EvaluateReady, GatesRan, Evaluated};

use crate::gate::Pieces;
use crate::table;
use gates::gate::Gate;
use gates::kind;

// Runs all gates in order. The inputs are already in the wire parts.
fn run_gates(
    t: usize,
    pieces: Pieces,
    inputs: usize,
    table: &[u32],
    triples: &[u8],
    wires: &mut [u8],
    published: &mut [u8],
)
    requires { RunReady t pieces inputs table.now triples.now wires.old published.old }
    ensures { GatesRan t pieces inputs table.now triples.now wires.old
        published.old wires.new published.new }
{
    let marks = kind::CONDITIONAL;
    let mut i = 0;
    for g in 0..table.len() / 4 {
        let gate = Gate::at(table, g);
        i = crate::gate::run_gate(
            &marks,
            t,
            pieces,
            gate,
            inputs + g,
            i,
            triples,
            wires,
            published,
        );
    }
}

// Copies the inputs to the start of each trustee's wire parts, runs the gates, and publishes each trustee's parts
// of the last k wires.
pub fn evaluate(
    t: usize,
    inputs: usize,
    table: &[u32],
    conditional: usize,
    k: usize,
    shares: &[u8],
    triples: &[u8],
    wires: &mut [u8],
    published: &mut [u8],
)
    requires { EvaluateReady t inputs table.now conditional k shares.now triples.now wires.old
        published.old }
    ensures { Evaluated t inputs table.now k
        (record { ballot_parts = shares.now; dealer_parts = triples.now }) wires.new
        published.new }
{
    let size = inputs + table.len() / 4;
    let factors = 2 * conditional;
    let pieces = Pieces {
        wires: size,
        triples: 3 * conditional,
        published: factors + k,
    };
    table::copy_pieces(t, inputs, shares, inputs, 0, wires, size, 0);
    run_gates(t, pieces, inputs, table, triples, wires, published);
    table::copy_pieces(t, k, wires, size, size - k, published, factors + k, factors);
}
