// No code: the theory of a loop body on ranks, its transfers and items, and the unrolled loop (specs/: what is defined and stated;
// proofs/: the proofs).
#![tactic(auto)]
