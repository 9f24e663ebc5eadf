// A round of up to eight juries, above the gate layer's step (request 2.8).
#![tactic(auto)]

pub mod header;
pub mod round;
