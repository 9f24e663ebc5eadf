// What exported calls share: their answers, as numbers in a lent array.
#![tactic(auto)]

pub mod array;
pub mod closing;
pub mod size;
