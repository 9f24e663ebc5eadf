// Tasting juries: shapes, ballots with their tests and counts, reasons.
#![tactic(auto)]

pub mod ballots;
pub mod counts;
mod orders;
pub mod rankings;
pub mod reason;
pub mod shape;
pub mod width;
