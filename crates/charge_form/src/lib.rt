// What the hours that listed windows cover cost: definitions (specs/) and the laws about them (proofs/). No code.

#![tactic(auto)]
