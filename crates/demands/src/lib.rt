#![tactic(auto)]
// The three demands, proved of the outcome of a run. See specs/Theorems.antt. There is no code here.
