// Series of calls: the history that they are compared with (specs/) and the theorem that they agree with it (proofs/). No code.

#![tactic(auto)]
