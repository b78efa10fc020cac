#![tactic(auto)]
// Laws of whole numbers, of sums and of lists: see specs/. There is no code here.
