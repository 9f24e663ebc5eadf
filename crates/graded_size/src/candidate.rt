// The span of a candidate's circuit. A span is a number of gates.
ghost use Rattle.std.specs.Prelude.{◌≡◌, ◌-◌, ◌*◌};
ghost use Rattle.graded_circuit.specs.Plan.{Planned};
ghost use Rattle.graded_circuit.specs.Key.{candidate_span};

use gate_adders::counter::count_size;
use graded_circuit::plan::Plan;

// The span of the rows: one for each grade but the best and the two worst.
fn rows_span(p: Plan) -> u32
    requires { Planned p }
    ensures { result ≡ (p.grades - 3) * p.ballots }
{
    p.grades.saturating_sub(3) * p.ballots
}

// The rows, the levels of a sum for each grade but the worst, and the key, with a word for each of these grades.
pub(crate) fn candidate_span(p: Plan) -> u32
    requires { Planned p }
    ensures { result ≡ candidate_span p }
{
    let rows = rows_span(p);
    let sum = count_size(p.ballots, p.offset, p.digits);
    let worst = count_size(p.ballots, p.worst, p.digits);
    rows + (p.grades - 2) * sum + worst + (p.grades - 1) * (p.digits + 1)
}
