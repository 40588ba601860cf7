// The cases of lists and reports. This crate has no code; its table stands in proofs/.
#![tactic(auto)]
