// Events and runs of them: definitions stand in specs/, theorems in proofs/. This crate has no code.
#![tactic(auto)]
