// What is written of a plan, as text and as a drawing: definitions in specs/, laws in proofs/. There is no code here.
#![tactic(auto)]
