// The counting core's entry points.
#![tactic(auto)]

pub mod answer;
pub mod count;
pub mod measure;
mod own;
pub mod run;
pub mod test;
pub mod write;
