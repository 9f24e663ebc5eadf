// The run on an urn: a list is evaluated on the ballots of the urn's ballot chain.
#![tactic(auto)]

mod load;
pub mod run;
