// The span of a contest. A span is a number of gates.
ghost use Rattle.std.specs.Prelude.{◌≡◌, ◌-◌, ◌≤◌, ◌<◌};
ghost use Rattle.gate_words.specs.Reach.{reach_span};
ghost use Rattle.graded_circuit.specs.Plan.{Planned};
ghost use Rattle.graded_circuit.specs.Median.{ones_span};
ghost use Rattle.graded_circuit.specs.Contest.{tie_break_below_span, contest_span};
ghost use Rattle.graded_size.specs.inner.Ready.{MediansReady, BelowReady};

use graded_circuit::plan::Plan;

// The comparison of two medians in above + 1 digits. Each digit takes two sums modulo 2 and a gate for whether they
// differ. Each digit but the lowest takes two gates more.
fn medians_span(count: u32, above: u32) -> u32
    requires { MediansReady count above }
    ensures { result ≡ ones_span count above }
{
    let mut gates: u32 = 2 * count - 1;
    let mut many = count / 2;
    for _ in 0..above {
        gates += 2 * many + 1;
        many /= 2;
    }
    gates
}

// The carry out of two words of `digits` digits. A single digit takes one gate. Otherwise the low half takes 2 gates
// a digit, less 1, and the high half 3 gates a digit, less 1.
fn reach_span(digits: u32) -> u32
    requires { (0 < digits) × (digits ≤ 7) }
    ensures { result ≡ reach_span (digits - 1) }
{
    if digits == 1 {
        return 1;
    }
    let low = (digits - 2) / 2;
    2 * low + 3 * (digits - 2 - low) + 3
}

// The comparison of the sums, without the result: nothing without low digits; one comparison for two grades.
// Otherwise each grade between the first and the last takes 2 gates a digit and 1 for its flags, and 4 a digit for
// two choices. The chosen words take two comparisons and two carries, and 14 gates follow.
fn tie_break_below_span(digits: u32, grades: u32) -> u32
    requires { BelowReady digits grades }
    ensures { result ≡ tie_break_below_span digits (grades - 2) }
{
    if digits == 0 {
        return 0;
    }
    if grades == 2 {
        return 3 * digits - 2;
    }
    (grades - 3) * (6 * digits + 1) + 6 * digits + 2 * reach_span(digits) + 10
}

// The two gates that say whether the keys differ, and which comes first.
const RESULT: u32 = 2;

// The comparison of the medians, that of the sums, and the result.
pub(crate) fn contest_span(p: Plan) -> u32
    requires { Planned p }
    ensures { result ≡ contest_span p }
{
    let medians = medians_span(p.grades - 1, p.places);
    let lower = tie_break_below_span(p.digits, p.grades);
    medians + lower + RESULT
}
