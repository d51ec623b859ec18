// Letters and numbers in base ten as bytes: definitions (specs/) and the laws about them (proofs/). The program's lines (document 01, "The program") and
// the marked sheet (document 02, T-02) are made of them. No code.

#![tactic(auto)]
