// Theorems about the listing of cards. They stand in proofs/; this crate has no code.
#![tactic(auto)]
