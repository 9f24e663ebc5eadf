// The blocks of the tables that a ranked tasting's own list is made of, one for each pair of candidates.
//
// Each function writes the gates of one block of `ranked_circuit` and returns the next writer. Its `requires` asks for
// room and for operands that are wires already. Each table has a function for its blocks, as it has a definition.
#![tactic(auto)]

pub mod entries;
pub mod kept;
