// The levels of a list for a shape: which conditional gates can be opened together, and in how many rounds.
#![tactic(auto)]

pub mod answer;
pub mod write;
