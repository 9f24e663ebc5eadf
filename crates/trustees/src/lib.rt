// The tally by trustees, each of whom holds one part of every ballot byte (request 2.7).
#![tactic(auto)]

pub mod run;
pub mod test;
