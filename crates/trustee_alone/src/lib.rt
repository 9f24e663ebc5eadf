// A trustee on its own machine: it holds its own tables, hears the opened sums, and sees nothing else.
#![tactic(auto)]

pub mod finish;
pub mod own;
pub mod round;
pub mod start;
