// The form of a sealed module file, which both sides share. Definitions stand in specs/, theorems in proofs/; there is no code here.
#![tactic(auto)]
