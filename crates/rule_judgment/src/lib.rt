// Full majority judgment: who wins by the sequences of medians.
#![tactic(auto)]

pub mod rule;
