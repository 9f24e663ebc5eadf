// A gate list that is evaluated by trustees, each of whom holds one part of every wire, in tables that go trustee
// after trustee. This crate knows gates and parts, but no juries. Tables are lent apart, since each function reads or
// writes some of them; functions that look alike have a definition each.
#![tactic(auto)]

pub mod bits;
pub mod dealing;
pub mod evaluate;
pub mod gate;
pub mod table;
