// The marked sheet on paper: what stands on it, how it is read back (specs/), and the theorems about both (proofs/). No code.

#![tactic(auto)]
