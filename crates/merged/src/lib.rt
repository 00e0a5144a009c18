// What a collapse keeps and makes: theorems in proofs/, no code. The definitions and the code stand in merging.

#![tactic(auto)]
