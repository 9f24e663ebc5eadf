// Parts of a contest of two keys: which median is worse, and the nearest grades at which the keys differ.
// Blocks that look alike have a function each, as they have a definition each.
#![tactic(auto)]

pub mod median;
pub mod nearest;
