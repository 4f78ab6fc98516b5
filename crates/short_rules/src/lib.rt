// How far a single order, branch or link can be out (request S-14): the three shortfalls and how they account for
// the gap, in specs/ and proofs/. There is no code.
#![tactic(auto)]
