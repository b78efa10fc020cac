#![tactic(auto)]
// The sweep over settled edges, which gives each edge its byte.

mod check;
pub mod sweep;
