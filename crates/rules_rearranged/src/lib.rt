// The order of orders (request S-9): cases and proposals rearranged, in specs/, and
// what stays the same, in proofs/. There is no code.
#![tactic(auto)]
