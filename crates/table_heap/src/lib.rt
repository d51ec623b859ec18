// Heap values: a number for each byte, by whose sums windows are compared with a pattern (document 01, "The five methods", 5).

#![tactic(auto)]

ghost use Rattle.std.specs.Prelude.{◌≡◌, ℕ, ◌+◌, ◌-◌, ◌*◌, ◌%◌, ◌^◌, ◌<◌, ◌≤◌, MatchOption};
ghost use Rattle.table_heap.specs.Powers.{IsPower};
ghost use Rattle.table_heap.specs.Table.{table_sum, Fillable, HeapTabled};

// a * b, modulo 2^64.
pub fn wrapping_mul(a: u64, b: u64) -> u64
    ensures wraps { result ≡ a * b % 2 ^ 64 }
{
    a.wrapping_mul(b)
}

// The largest number of a digit more than the given one in this base, where it fits.
fn digit_more(largest: u64, base: u64) -> Option<u64>
    requires { 0 < base }
    ensures { MatchOption result (2 ^ 64 ≤ largest * base + (base - 1)) (λ more. (more ≡ largest * base + (base - 1)) × (more < 2 ^ 64)) }
{
    largest.checked_mul(base)?.checked_add(base - 1)
}

// A power base^i, in 64 bits.
#[derive(Clone, Copy, Debug, PartialEq, Eq)]
struct Power {
    // base^i, modulo 2^64.
    value: u64,
    // base^i - 1, the largest number of i digits in this base, where base^i is at most 2^64: this fits even at 2^64.
    largest: Option<u64>,
}

impl Power {
    // base^(i + 1).
    fn next(self, base: u64) -> Self
        requires { 0 < base }
        ensures { (i : ℕ) → IsPower base i self → IsPower base (i + 1) result }
    {
        Power {
            value: wrapping_mul(self.value, base),
            largest: self.largest.and_then(|largest| digit_more(largest, base)),
        }
    }
}

// The sum of the bytes' values, modulo 2^64.
pub fn sum_of(values: &[u64; 256], bytes: &[u8]) -> u64
    ensures { result ≡ table_sum values.now bytes.now }
{
    let mut sum = 0u64;
    for byte in bytes {
        sum = sum.wrapping_add(values[*byte as usize]);
    }
    sum
}

// What method 5 compares a window's sum with.
#[derive(Clone, Copy, Debug, PartialEq, Eq)]
pub struct Target {
    // The pattern's own sum, which a candidate's equals.
    pub sum: u64,
    // A candidate matches, and is not verified.
    pub exact: bool,
}

// Fills in the heap values of a pattern of m bytes, 0 standing for every byte: its distinct bytes, ascending, have the powers of m + 1. In
// that base a count of up to m is one digit.
pub fn fill_values(pattern: &[u8], counts: &[u8; 256], values: &mut [u64; 256]) -> Target
    requires { Fillable pattern.now counts.now values.old }
    ensures { HeapTabled pattern.now values.new result }
{
    let span = table_parikh::span_of(pattern);
    let base = pattern.len() as u64 + 1;
    let mut power = Power {
        value: 1,
        largest: Some(0),
    };
    // The byte is a place in two tables, one read and one written.
    for byte in span.low..span.past {
        if counts[byte] > 0 {
            values[byte] = power.value;
            power = power.next(base);
        }
    }
    Target {
        sum: sum_of(values, pattern),
        exact: power.largest.is_some(),
    }
}
