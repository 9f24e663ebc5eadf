// What write, test and run answer.
use gates::list::ListSize;
use jury::reason::Refusal;

// The list's own G and C, or the first reason that applies.
pub type Answer = Result<ListSize, Refusal>;
