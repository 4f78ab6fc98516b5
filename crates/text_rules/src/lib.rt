// Numbers and fixed words as text, as definitions in specs/ and laws in proofs/. There is no code.
#![tactic(auto)]
