#![tactic(auto)]
// What a crossing is: the types here, the definitions and laws in specs/. The code that finds one stands in the crates above.
pub mod answer;
