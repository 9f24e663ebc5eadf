// The calls on an urn and the run on one, for programs in C and Rust.
// Each export has a function, and all begin alike: they answer a number, so `?` cannot hand a refusal on.
#![tactic(auto)]

mod answer;
pub mod run;
pub mod urns;
