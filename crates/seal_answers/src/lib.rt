// What `seal` answers: definitions in specs/, laws of them in proofs/. There is no code here.
#![tactic(auto)]
