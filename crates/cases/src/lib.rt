// The cases of the rules. This crate has no code; its tables stand in proofs/.
#![tactic(auto)]
