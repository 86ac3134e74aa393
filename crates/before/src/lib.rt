// What a sheet was before a request of document 02, and that such sheets are judged as before. There is no code here: see specs/ and proofs/.
#![tactic(auto)]
