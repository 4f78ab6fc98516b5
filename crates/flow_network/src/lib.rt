// Flows along ordered pairs of zones, in specs/, and the theorems about them, in proofs/. There is no code.
#![tactic(auto)]
