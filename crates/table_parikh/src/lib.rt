// Parikh vectors: how often each byte occurs in a pattern or a window, as an array of 256 counters; and a window verified by them.

#![tactic(auto)]

ghost use Rattle.std.specs.Prelude.{◌≡◌, ◌≤◌, length};
ghost use Rattle.jumbled.specs.Match.{cc, lost_hour};
ghost use Rattle.table_parikh.specs.Table.{parikh, AllowedBy, within_counts};
ghost use Rattle.table_parikh.specs.Letters.{Spanned, Occurring};

// The byte of an hour with no reading, `-`, which is no evidence (document 02, T-07).
pub const LOST_HOUR: u8 = 45;

// How often each byte occurs in a pattern or a window: document 01, "What a match is", cc(U, c). No counter passes 64, so a byte holds each.
pub fn counts(s: &[u8]) -> [u8; 256]
    requires { length s.now ≤ 64 }
    ensures { result ≡ parikh s.now }
{
    let mut counts = [0u8; 256];
    for byte in s {
        counts[*byte as usize] += 1;
    }
    counts
}

// How many of the bytes are lost hours.
pub fn lost_hours(bytes: &[u8]) -> usize
    ensures { result ≡ cc bytes.now lost_hour }
{
    bytes.iter().filter(|byte| **byte == LOST_HOUR).count()
}

// How often a window may have each byte, by the pattern's counts: as often as the pattern has it, and a lost hour more often than a window has bytes.
pub fn allowances(counts: &[u8; 256]) -> [u8; 256]
    ensures { AllowedBy counts.now result }
{
    let mut allowed = *counts;
    allowed[LOST_HOUR as usize] = 255;
    allowed
}

// The bytes from `low` up to the one before `past`.
#[derive(Clone, Copy, Debug, PartialEq, Eq)]
pub struct Span {
    pub low: usize,
    pub past: usize,
}

// A span that holds every byte of a pattern: no other byte has a field or a value, so a table is filled from these alone.
pub fn span_of(pattern: &[u8]) -> Span
    ensures { Spanned pattern.now result }
{
    let mut low: usize = 256;
    let mut past: usize = 0;
    for byte in pattern {
        let byte = *byte as usize;
        low = low.min(byte);
        past = past.max(byte + 1);
    }
    Span { low, past }
}

// Which bytes the pattern has; a lost hour is taken for one of them (document 02, T-07).
pub fn occurring(pattern: &[u8]) -> [bool; 256]
    ensures { Occurring pattern.now result }
{
    let mut occurs = [false; 256];
    occurs[LOST_HOUR as usize] = true;
    for byte in pattern {
        occurs[*byte as usize] = true;
    }
    occurs
}

// Whether no byte occurs in the window more often than it may. The first byte too many ends it.
pub fn within(allowed: &[u8; 256], window: &[u8]) -> bool
    requires { length window.now ≤ 64 }
    ensures { result ≡ within_counts allowed.now window.now }
{
    let mut used = [0u8; 256];
    for byte in window {
        let byte = *byte as usize;
        if used[byte] >= allowed[byte] {
            return false;
        }
        used[byte] += 1;
    }
    true
}
