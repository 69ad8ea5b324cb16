// A host's life through power cuts: definitions stand in specs/, theorems in proofs/. This crate has no code.
#![tactic(auto)]
