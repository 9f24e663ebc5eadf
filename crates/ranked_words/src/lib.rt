// The parts of the blocks of a ranked tasting's own list: comparing two words, choosing the smaller or the larger
// one, and the meeting of two candidates.
//
// Each function writes the gates of a definition of `ranked_circuit` and returns the next writer. Its `requires` asks
// for room and for operands that are wires already. Wires are passed one by one, and blocks that look alike have a
// function each, as the definitions have it.
#![tactic(auto)]

pub mod blocks;
pub mod meeting;
