// Ranked tastings: Schulze's rule.
#![tactic(auto)]

pub mod count;
pub mod rule;
mod votes;
