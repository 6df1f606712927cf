// No code: the edge rule of a body's items decided, the list of all edges, and how many they can be (specs/: tests that the proofs and
// the code of `graph` share; proofs/: that they are the rule).
#![tactic(auto)]
