// Gate lists evaluated for 64 juries at once (bit-slicing): each wire is a 64-bit word, and bit j belongs to jury j.
// This crate knows gates, wires and words; of juries it knows only their number.
#![tactic(auto)]

pub mod step;
pub mod word;
