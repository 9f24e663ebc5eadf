// The number of gates of the own list of a graded shape, without writing it: the spans of its parts are added up. A
// span is a number of gates.
#![tactic(auto)]

mod candidate;
mod contest;
pub mod list;
