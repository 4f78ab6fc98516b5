// Two order books joined (request S-9), one after the other, and the answer, in specs/ and proofs/. There
// is no code.
#![tactic(auto)]
