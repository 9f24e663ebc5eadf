// Gate lists as text: the text of a list, written and read back.
#![tactic(auto)]

pub mod answer;
pub mod read;
mod scan;
pub mod write;
