// Laws that speak of numbers, tests and lists alone, and not of document 01. There is no code here: see proofs/.
#![tactic(auto)]
