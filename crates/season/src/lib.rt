// A season's runs and their sums, for the season sheet.
#![tactic(auto)]

pub mod run;
pub mod sheet;
