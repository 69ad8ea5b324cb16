// What joins datapoints and device stands in specs/ and proofs/: this crate has no code.
#![tactic(auto)]
