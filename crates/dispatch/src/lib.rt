// One unit for up to eight juries: a scheduler that shares it out among them (request 2.8).
#![tactic(auto)]

pub mod dispatch;
pub mod refusal;
mod tests;
