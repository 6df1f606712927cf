// No code: the lines of a journal, what a check of one answers and leaves, and the journal of a
// list of steps (specs/); that a check accepts just the journals of steps that hold (proofs/).
#![tactic(auto)]
