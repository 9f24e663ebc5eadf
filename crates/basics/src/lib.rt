#![tactic(auto)]

// What all floors share: definitions and laws of truth values, sums and tables, and a copy of a slice.
pub mod slice;
