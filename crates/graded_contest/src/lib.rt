// Writes the comparison of two keys by full majority judgment into a table. Wires are passed one by one, as the
// definitions of `graded_circuit` take them.
#![tactic(auto)]

pub mod contest;
mod tie_break;
