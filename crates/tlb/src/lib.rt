// A theory: this crate holds definitions and proofs, and no code.
#![tactic(auto)]
