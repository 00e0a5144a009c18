// Collapses one after another: statements in specs/, theorems in proofs/, no code.

#![tactic(auto)]
