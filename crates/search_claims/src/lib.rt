// What the theorem on series and the contracts of the calls come to, sentence by sentence, and series worked out (proofs/). No code.

#![tactic(auto)]
