// The desk queue of request S-8: posts, serves and runs of them, in specs/, and the theorems about every run, in
// proofs/. There is no code.
#![tactic(auto)]
