// The entry point that runs 64 juries of one shape in one call.
#![tactic(auto)]

pub mod ballots;
pub mod rankings;
pub mod run;
