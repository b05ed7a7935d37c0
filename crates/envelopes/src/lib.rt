// What is written for an account, over any labels: definitions and theorems.
#![tactic(auto)]
