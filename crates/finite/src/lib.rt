// No code: bounded quantifiers, sums, list builders and numbers put into a slice (specs/), with
// their laws (proofs/), for the crates above.
#![tactic(auto)]
