// An image as lines. This crate has no code; the definitions stand in specs/, the theorems in proofs/.
#![tactic(auto)]
