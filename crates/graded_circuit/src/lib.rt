// The own list of a shape: full majority judgment as a circuit.
#![tactic(auto)]

pub mod plan;
