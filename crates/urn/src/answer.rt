// What admission, withdrawal and emptying answer.
use jury::reason::Refusal;

// The number of ballots in the urn after the call, or the first reason that applies.
pub type Answer = Result<usize, Refusal>;
