// No code: the theory of running the items of a loop in any order (specs/: what is defined and stated; proofs/: the proofs).
#![tactic(auto)]
