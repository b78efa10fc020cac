#![tactic(auto)]
// Laws of weighted lists of segments: balance, the sums along an edge, the signs at a point, rays. See specs/. There is no code here.
