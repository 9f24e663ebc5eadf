// The five entry points for programs in C and Rust. A lent slice is a pointer and a length. The answer goes into the
// lent array `answer`; its first number, the reason, is also returned.
// Each export has a function, and all begin alike: they answer a number, so `?` cannot hand a refusal on.
#![tactic(auto)]

mod answer;
pub mod count;
pub mod measure;
pub mod run;
pub mod test;
pub mod write;
