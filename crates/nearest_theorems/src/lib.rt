// Theorems about nearest writing. They stand in proofs/; this crate has no code.
#![tactic(auto)]
