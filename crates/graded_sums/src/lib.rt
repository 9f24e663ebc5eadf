// Writes the circuit of one candidate into a table.
#![tactic(auto)]

pub mod key;
mod sums;
