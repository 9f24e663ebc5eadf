// Writes adders and counters of every width: the blocks of `gate_words` that add words and count bits.
//
// Each function writes the gates of one block and returns the next writer. Its `requires` asks for room, and for
// operands that are wires already. Wires are passed one by one, as the definitions take them; a loop that steps from
// wire to wire counts no index of a list.
#![tactic(auto)]

pub mod adder;
pub mod counter;
pub mod reach;
