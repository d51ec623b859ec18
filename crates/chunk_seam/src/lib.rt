// A tail and the chunk after it, made ready for a search that does not join them: which windows start in each, and the seam, which holds those that start in the tail.

#![tactic(auto)]

ghost use Rattle.std.specs.Prelude.{◌≡◌, ◌++◌, ◌+◌, ◌-◌, ◌^◌, ◌≤◌, ◌<◌, length, take};
ghost use Rattle.chunk_seam.specs.Joined.{Parted};

use lent::{Range, copy_in};
use std::marker::Model;

// The windows of a tail and of the chunk after it.
#[derive(Clone, Copy, Debug, PartialEq, Eq)]
pub struct Split {
    // How many bytes the tail has, the seam's first ones.
    pub tail: usize,
    // The windows that start in the tail, each of which lies in the seam,
    pub over_tail: Range,
    // and those that start in the chunk.
    pub over_chunk: Range,
}

// Each window of m bytes starts in the tail or in the chunk.
pub fn split_starts(m: usize, tail: usize, chunk: usize, base: usize) -> Split
    requires { base + (tail + chunk) ≤ 2 ^ 32 }
    ensures { Parted m tail chunk base result }
{
    let past = tail + chunk + 1;
    let starts = past - m.min(past);
    let in_tail = starts.min(tail);
    Split {
        tail,
        over_tail: Range {
            first: 0,
            end: in_tail,
            base,
            at: 0,
        },
        over_chunk: Range {
            first: 0,
            end: starts - in_tail,
            base: base + tail,
            at: 0,
        },
    }
}

// A seam, which the tail begins, the chunk after the tail, and the windows of both: what a search of the two goes over.
#[derive(Clone, Copy)]
pub struct Joined<'a> {
    pub seam: &'a [u8],
    pub chunk: &'a [u8],
    pub split: Split,
}

// The tail and the first bytes of a chunk: all that the windows which start in the tail reach. The places past these hold 0.
#[derive(Drop)]
pub struct Seam {
    places: [u8; 128],
    len: usize,
}

impl Model for Seam {
    ghost use Rattle.std.specs.Prelude.{List, ℕ, take};
    ghost use Rattle.chunk_seam.specs.Seam.{Kept};

    ghost Value = { List ℕ };

    ghost view = { λ seam. take seam.len seam.places };

    ghost invariant = { λ seam. Kept seam.places seam.len };
}

impl Seam {
    // Its bytes.
    pub fn bytes(&self) -> &[u8]
        ensures { result.now ≡ self.now }
    {
        &self.places[..self.len]
    }
}

// The tail and as much of the chunk as a window that starts in the tail can reach.
pub fn seam_of(tail: &[u8], chunk: &[u8], m: usize) -> Seam
    requires { (length tail.now < m) × (m ≤ 64) }
    ensures { result ≡ tail.now ++ take (m - 1) chunk.now }
{
    let count = (m - 1).min(chunk.len());
    let mut places = [0u8; 128];
    let tail_end = copy_in(tail, &mut places, 0);
    let len = copy_in(&chunk[..count], &mut places, tail_end);
    Seam { places, len }
}
