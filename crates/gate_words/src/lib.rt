// Word circuits: blocks of gates that count, add, compare and choose, for every width. This crate knows gates and
// words, and nothing of shapes or juries.
//
// Each method of Writer writes the gates of one block of specs/ and returns the next writer. Its `requires` asks for
// `Room`, which bounds what the writer counts and not the table, and for operands that are wires already.
// Wires are passed one by one, and blocks that look alike have a function each, as the definitions have it. A loop that
// steps from wire to wire counts no index of a list.
#![tactic(auto)]

pub mod choice;
pub mod comparison;
pub mod halves;
pub mod rows;
pub mod writer;
