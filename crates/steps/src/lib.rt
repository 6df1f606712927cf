// No code: what opening, start, finish, result and ready answer and leave, for every plan and every
// lent state, and lists of calls (specs/); that they are the steps of the machine of `unroll`, and
// so compute the loop in any order (proofs/).
#![tactic(auto)]
