// The saved form of a search: its definition (specs/), and that what is read in an image is what was written (proofs/).

#![tactic(auto)]

// The bytes before the bodies: the first byte and four entries of 3.
pub const HEAD: usize = 13;
