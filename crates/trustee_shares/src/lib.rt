#![tactic(auto)]

// A gate list that is run by trustees, each of whom holds one part (an XOR share) of every wire. This crate has
// only definitions and theorems.
