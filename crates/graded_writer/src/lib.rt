// Writes the own list of a graded shape into a table. Wires are passed one by one, as the definitions of
// `graded_circuit` take them.
#![tactic(auto)]

pub mod list;
mod merge;
