// Records of two sizes, and the converter between them: laws about document 02's definitions. There is no code here: see proofs/.
#![tactic(auto)]
