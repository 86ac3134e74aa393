// What a low and a high sheet say of every sheet between them: document 02, F-8. There is no code here: see proofs/, and of them Ranges first.
#![tactic(auto)]
