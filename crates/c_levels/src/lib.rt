// The levels of a list for programs in C and Rust, and the answers of all calls that use levels.
// Each export has a function, and all begin alike: they answer a number, so `?` cannot hand a refusal on.
#![tactic(auto)]

pub mod calls;
