// The theorems about histories stand in specs/ and proofs/: this crate has no code.
#![tactic(auto)]
