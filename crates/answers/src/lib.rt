// What judging answers and when: laws about the definitions of document 01. There is no code here: see proofs/.
#![tactic(auto)]
