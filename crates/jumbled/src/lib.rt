// Jumbled matching: definitions (specs/) and the theorems about them (proofs/). No code.

#![tactic(auto)]
