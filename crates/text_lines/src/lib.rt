// One gate as a line of text, with its numbers in decimal.
#![tactic(auto)]

mod decimal;
pub mod line;
pub mod print;
