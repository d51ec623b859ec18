// What is compared of a stored case (tools/vectors_stream.py): digests of what its call leaves behind, which have a module of their own, and outcomes,
// which are read from the stream, compared and printed.

#![tactic(auto)]

ghost use Rattle.std.specs.Prelude.{◌≡◌, ◌≤◌};
ghost use Rattle.tests_outcomes.specs.Outcomes.{outcome_after};

pub mod digest;

use std::fmt;
use tests_stream::read_number;

// What a call came to: document 01's number, 0 where it was accepted, two numbers that the call gives, and the digest of what it left.
#[derive(Clone, Copy, Debug, PartialEq, Eq)]
pub struct Outcome {
    pub number: u64,
    pub a: u64,
    pub b: u64,
    pub digest: u64,
}

impl fmt::Display for Outcome {
    fn fmt<W: fmt::Write>(&self, f: &mut fmt::Formatter<W>) -> fmt::Result {
        write!(f, "{} {} {} {}", self.number, self.a, self.b, self.digest)
    }
}

// An outcome that the stream holds.
#[derive(Drop)]
pub struct StoredOutcome {
    pub outcome: Outcome,
    pub next: usize,
}

// The outcome that stands in the stream after a case, if it has one; else all 0.
pub fn read_outcome(stream: &[u8], at: usize, stored: bool) -> StoredOutcome
    ensures { result ≡ outcome_after stream.now at stored }
{
    if !stored {
        return StoredOutcome {
            outcome: Outcome {
                number: 0,
                a: 0,
                b: 0,
                digest: 0,
            },
            next: at,
        };
    }
    let number = read_number(stream, at, 1, 255);
    let a = read_number(stream, number.next, 4, 4294967295);
    let b = read_number(stream, a.next, 4, 4294967295);
    let digest = read_number(stream, b.next, 8, 18446744073709551615);
    StoredOutcome {
        outcome: Outcome {
            number: number.value,
            a: a.value,
            b: b.value,
            digest: digest.value,
        },
        next: digest.next,
    }
}

// ---- lines, on standard output. A write that fails is not reported, and what follows is tried all the same.

// Prints a line, each byte by a write of its own, and so each number: `#` stands for the next of them.
fn print_line<R: Print>(rt: &R, line: &[u8], numbers: &[u64]) {
    let mut numbers = numbers.iter();
    for byte in line {
        if *byte != b'#' {
            drop(rt.write_all(&[*byte]));
        } else if let Some(number) = numbers.next() {
            drop(rt.print(*number));
        }
    }
}

// The line of a case that came to something else than is stored.
pub fn print_difference<R: Print>(rt: &R, case: usize, op: u8, got: Outcome, expected: Outcome) {
    let numbers = [
        case as u64,
        op as u64,
        got.number,
        got.a,
        got.b,
        got.digest,
        expected.number,
        expected.a,
        expected.b,
        expected.digest,
    ];
    print_line(
        rt,
        b"case # op #: got # # # #, expected # # # #\n",
        &numbers,
    );
}

pub fn print_malformed<R: Print>(rt: &R, at: usize) {
    print_line(rt, b"malformed at byte #\n", &[at as u64]);
}

pub fn print_tally<R: Print>(rt: &R, cases: usize, differ: usize)
    requires { differ ≤ cases }
{
    let agreed = cases - differ;
    print_line(
        rt,
        b"# cases, # agreed, # differ\n",
        &[cases as u64, agreed as u64, differ as u64],
    );
}
