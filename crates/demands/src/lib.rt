#![tactic(auto)]

// What is proved about all calls, in one record. There is no program here.
