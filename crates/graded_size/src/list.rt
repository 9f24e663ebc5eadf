// The number of gates of an own list.
ghost use Rattle.std.specs.Prelude.{◌≡◌, T, length};
ghost use Rattle.jury.specs.Shape.{graded_limits};
ghost use Rattle.graded_circuit.specs.OwnList.{levels_span, circuit, own_grading};
ghost use Rattle.graded_size.specs.inner.Ready.{GroupReady, CircuitReady};

use crate::candidate::candidate_span;
use crate::contest::contest_span;
use graded_circuit::plan::Plan;
use jury::shape::Shape;

// The gates that follow a contest in a merge: which group is better, and which group stays.
const SELECT_FLAGS: u32 = 3;

// The best of one or two candidates: if there are two, their merge and the better key. A merge is a contest, these
// three gates and a wire for each candidate. `contest` and `key` are the spans of a contest and a key,
// passed apart as the clauses name them.
fn pair_span(p: Plan, contest: u32, key: u32, count: u32) -> u32
    requires { GroupReady p contest key count 2 }
    ensures { result ≡ levels_span p 1 count }
{
    if count <= 1 {
        return 0;
    }
    contest + SELECT_FLAGS + count + key
}

// The best of one to four candidates: both halves, their merge, and the better key.
fn best_of_four_span(p: Plan, contest: u32, key: u32, count: u32) -> u32
    requires { GroupReady p contest key count 4 }
    ensures { result ≡ levels_span p 2 count }
{
    if count <= 1 {
        return 0;
    }
    let first = count / 2;
    let low = pair_span(p, contest, key, first);
    let high = pair_span(p, contest, key, count - first);
    low + high + contest + SELECT_FLAGS + count + key
}

// The circuits of all candidates, the levels of both halves, and the last merge, which keeps no key.
fn circuit_span(p: Plan) -> u32
    requires { CircuitReady p }
    ensures { result ≡ length (circuit p) }
{
    let each = candidate_span(p);
    let contest = contest_span(p);
    let key = (p.grades - 1) * (p.digits + 1);
    let count = p.candidates;
    let low = best_of_four_span(p, contest, key, count / 2);
    let high = best_of_four_span(p, contest, key, count - count / 2);
    count * each + low + high + contest + SELECT_FLAGS + count
}

// G of the own list of a shape.
pub fn gates(shape: Shape) -> usize
    requires { T (graded_limits shape) }
    ensures { result ≡ length (own_grading shape) }
{
    if shape.candidates == 1 {
        return 1;
    }
    // `as`: no `From` makes a usize of a u32.
    circuit_span(Plan::new(shape)) as usize
}
