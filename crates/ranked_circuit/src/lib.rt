#![tactic(auto)]

// The own list of a ranked tasting: Schulze's rule as a circuit.
