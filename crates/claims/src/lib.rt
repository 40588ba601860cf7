// What is claimed of the whole, a sentence of the rules to a theorem. This crate has no code; the page to read is proofs/Claims.antt.
#![tactic(auto)]
