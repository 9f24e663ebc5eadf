// The tally by trustees, and a trustee on its own machine, for programs in C and Rust.
// Each export has a function, and all begin alike: they answer a number, so `?` cannot hand a refusal on.
#![tactic(auto)]

pub mod by_trustees;
pub mod one_trustee;
