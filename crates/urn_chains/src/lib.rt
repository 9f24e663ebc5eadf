// An urn of graded ballots: a table of slots in two chains, the ballots and the free slots. This crate tests whether
// a table is a sound urn, and finds a juror's ballot in it.
#![tactic(auto)]

pub mod find;
pub mod sound;
pub mod walk;
