// Theorems about Eagle reels. They stand in proofs/; this crate has no code.
#![tactic(auto)]
