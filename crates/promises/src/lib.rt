// What the checker's yes and no mean: statements in specs/, theorems in proofs/, no code.

#![tactic(auto)]
