// Up to eight juries in rounds, for programs in C and Rust.
#![tactic(auto)]

pub mod by_rounds;
