// Writing and reading lists as text, for programs in C and Rust.
// Each export has a function, and all begin alike: they answer a number, so `?` cannot hand a refusal on.
#![tactic(auto)]

pub mod calls;
