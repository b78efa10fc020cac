#![tactic(auto)]
// A pair of segments: what the four signs of their turns say of their common points. The laws stand in specs/. There is no code here.
