#![tactic(auto)]
// The marks of a look, in a list and in order (split/solver.rs).
pub mod answer;
pub mod mark;
pub mod tidy;
