// A search for several patterns in one pass: definitions (specs/) and the theorems about them (proofs/). No code.

#![tactic(auto)]
