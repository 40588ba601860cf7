// A step for runs from an accepted start, which notes no more than it has to. This crate has no code; the definitions stand in specs/,
// the theorems in proofs/.
#![tactic(auto)]
