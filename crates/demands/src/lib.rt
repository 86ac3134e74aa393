// Demands 1 and 3, proved of the definitions of document 01. There is no code here: see proofs/, and of it Demand1 and Demand3 first.
#![tactic(auto)]
