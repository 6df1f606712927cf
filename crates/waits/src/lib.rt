// No code: how many waits of an item are unmet, and what a finish does to these numbers (specs/);
// that they stay fresh counts, and say of a start what the waits say (proofs/).
#![tactic(auto)]
