// No code: the starred cases of the paper as one table over the definitions (specs/Table.antt),
// proved.
#![tactic(auto)]
