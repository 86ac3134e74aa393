// Documents 01 and 02 as definitions: what a reviewer must believe. There is no code here; specs/ has a file for each section of document 01,
// and one for each request of document 02 that is about no sheet.
#![tactic(auto)]
