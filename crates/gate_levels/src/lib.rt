// Levels of a gate list: the multiplicative depth of each gate.
// This crate knows gates and wires, and nothing of juries.
#![tactic(auto)]

pub mod level;
