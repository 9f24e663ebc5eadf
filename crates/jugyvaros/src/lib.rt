// The archive for programs in C and Rust: each exported call is the call of the same name in a crate below, with its
// contract. No crate can stand on one from which an archive is made, and the calls of the crates below export nothing
// by themselves. A lent slice is a pointer and a length. The answer goes into the lent array `answer`; its first
// number, the reason, is also returned.
#![tactic(auto)]

pub mod all_trustees;
pub mod batches;
pub mod depths;
pub mod entry_points;
pub mod one_trustee;
pub mod rounds;
pub mod texts;
pub mod urns;
