// Writes the own list of a ranked tasting into a table.
#![tactic(auto)]

pub mod list;
mod losers;
mod tables;
