#![tactic(auto)]
// The scan list of the sweep: the edges that are live at a node, and the sums of those that lie below an edge.

pub mod list;
pub mod nodes;
pub mod sums;
