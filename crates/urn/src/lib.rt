// Admission to an urn of graded ballots, withdrawal from it, and previews of both.
#![tactic(auto)]

pub mod admit;
pub mod answer;
pub mod empty;
pub mod facts;
mod put;
pub mod withdraw;
