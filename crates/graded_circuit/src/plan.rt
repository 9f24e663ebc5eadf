// The public numbers from which the circuit of a shape is built.
ghost use Rattle.std.specs.Prelude.{◌≡◌, T};
ghost use Rattle.jury.specs.Shape.{graded_limits};
ghost use Rattle.graded_circuit.specs.Plan.{plan_of};

use jury::shape::Shape;

// A sum has `digits` low digits and a top one; the number of a median grade has `places` low digits and a top one.
// `offset` is added to each sum, and `worst` to the count of the worst grade: `plan_of` says why.
// What holds of a plan is a record of clauses, `Planned`, over this struct: a ghost field could not cite it.
#[derive(Clone, Copy)]
pub struct Plan {
    pub candidates: u32,
    pub grades: u32,
    pub ballots: u32,
    pub inputs: u32,
    pub digits: u32,
    pub offset: u32,
    pub worst: u32,
    pub places: u32,
}

impl Plan {
    // The plan of a shape.
    pub fn new(shape: Shape) -> Plan
        requires { T (graded_limits shape) }
        ensures { result ≡ plan_of shape }
    {
        // `as`: within the limits each number fits, so there is no refusal for `try_from` to hand on.
        let ballots = shape.ballots as u32;
        let digits = jury::width::width(shape.ballots) as u32 - 1;
        let most = 2u32.pow(digits);
        Plan {
            candidates: shape.candidates as u32,
            grades: shape.grades as u32,
            ballots,
            inputs: shape.ballot_bytes() as u32,
            digits,
            offset: most - (ballots + 1) / 2,
            worst: most - 1 - ballots / 2,
            places: jury::width::width(shape.grades - 1) as u32 - 1,
        }
    }
}
