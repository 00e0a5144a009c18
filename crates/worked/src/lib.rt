// C1 to C15 in one table: the table in specs/, the theorem that every row holds in proofs/, no code.

#![tactic(auto)]
