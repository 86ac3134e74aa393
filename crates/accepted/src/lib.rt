// What an accepted sheet's records are like: laws about the definitions of document 01. There is no code here: see proofs/.
#![tactic(auto)]
