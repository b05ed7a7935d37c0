// The demands as theorems: statements in specs/, proofs in proofs/. There is no code here.
#![tactic(auto)]
