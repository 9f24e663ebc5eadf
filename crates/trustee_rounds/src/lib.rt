// One trustee's work, level by level, in its own tables. This crate knows gates and parts, but no juries.
// The trustee's own tables are whole, where `trustee_gates` has a piece for each trustee; so the functions of one gate
// are its own.
#![tactic(auto)]

pub mod part;
pub mod round;
