// Derivation trees over an abstract order: definitions in specs/, theorems in proofs/. There is no code here.
#![tactic(auto)]
