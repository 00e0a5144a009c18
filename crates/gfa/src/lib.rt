// GFA 1 from its public specification, and how reading and writing agree with it: statements in specs/, theorems in proofs/,
// no code.

#![tactic(auto)]
