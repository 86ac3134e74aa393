// The worked series of document 01 as a table over the bytes of whole sheets, and the worked values of document 02 as another, each proved by
// one computed check. There is no code here: see specs/.
#![tactic(auto)]
