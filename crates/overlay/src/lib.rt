#![tactic(auto)]
// The run: the list is checked, looked over and split until it is settled, then swept (core/).
pub mod answer;
