// Worked series that go to a plan's last rows, each proved by a computed check that takes longer than those of `cases`. There is no code here: see
// specs/.
#![tactic(auto)]
