// What entering a finding does to a sheet and to what is judged of it: document 02, F-5. There is no code here: see proofs/, and of them Findings and Entering first.
#![tactic(auto)]
