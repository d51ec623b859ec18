// What is lent to a search and what a search hands back: the window starts that a loop goes through and where their positions go, and bytes
// copied into a lent buffer. What a loop or a writer then says it did is in specs/.

#![tactic(auto)]

ghost use Rattle.std.specs.Prelude.{◌≡◌, ◌+◌, ◌≤◌, length, replicate};
ghost use Rattle.lent.specs.Written.{Written};

pub mod writer;

use std::io::Read;

// The window starts of a slice that a loop searches, and where their positions go.
#[derive(Clone, Copy, Debug, PartialEq, Eq)]
pub struct Range {
    // The first window start,
    pub first: usize,
    // and the one after the last.
    pub end: usize,
    // What is added to each position.
    pub base: usize,
    // The list's next place.
    pub at: usize,
}

// How many positions a search found, and the inspections that it made.
#[derive(Clone, Copy, Debug, PartialEq, Eq)]
pub struct SearchCounts {
    pub found: usize,
    pub inspections: usize,
}

// All of source, put into the buffer from a place on; the place after it is given.
pub fn copy_in(source: &[u8], buffer: &mut [u8], at: usize) -> usize
    requires { at + length source.now ≤ length buffer.old }
    ensures { Written buffer.old at source.now buffer.new result }
{
    let next = at + source.len();
    buffer[at..next].copy_from_slice(source);
    next
}

// So many times a number, by its count N. That many are there by a law: the prover would count the places of a large N one by one.
pub fn room<T: Copy, const N: usize>(blank: T) -> [T; N]
    ensures { (result ≡ replicate N blank) × (N ≡ length result) }
{
    [blank; N]
}

// Reads until the buffer is full, the input ends or a read fails; says how many bytes it put at the buffer's start.
pub fn read_full<R: Read>(reader: &mut R, buffer: &mut [u8]) -> usize
    ensures within { result ≤ length buffer.new }
    ensures same_length { length buffer.new ≡ length buffer.old }
{
    let mut read = 0;
    // Not one by one: each turn goes on by as many bytes as a read gave.
    while read < buffer.len() {
        match reader.read(&mut buffer[read..]) {
            Ok(0) | Err(_) => break,
            Ok(n) => read += n,
        }
    }
    read
}
