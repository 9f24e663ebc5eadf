// Gate lists: the table of kinds, the test of a list, and its evaluation with a masked board.
// This crate knows gates and wires, and nothing of juries.
#![tactic(auto)]

pub mod gate;
pub mod kind;
pub mod lengths;
pub mod list;
pub mod place;
pub mod step;
