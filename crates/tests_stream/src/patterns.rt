// The text of a pattern in the cases whose call has further arguments (tools/vectors_stream.py). For several patterns: the places of the list of their
// numbers, their lengths, and their bytes. For a search with its marked sheet: the bytes of its buffer, and the pattern. For the first match: the
// position from which on it is sought, and the pattern.
ghost use Rattle.std.specs.Prelude.{◌≡◌, ◌≤◌, length, drop};
ghost use Rattle.tests_stream.specs.Fillings.{Filled};
ghost use Rattle.tests_stream.specs.Reading.{number_at};
ghost use Rattle.tests_stream.specs.Patterns.{lent_places, length_count, length_at, pattern_bytes, marked_pattern, start_position, pattern_after_start};

use crate::read_number;

// The most lengths that a case hands over.
pub const MOST_LENGTHS: usize = 16;

// The number of `width` bytes at a place.
fn number_in(handed: &[u8], at: usize, width: usize, most: u64) -> usize
    requires { width ≤ 8 }
    ensures upper_bound { result ≤ most }
    ensures value { result ≡ (number_at handed.now at width most).value }
{
    let number = read_number(handed, at, width, most);
    number.value as usize
}

// How many places the call is lent beside those of its list.
pub fn lent_places(handed: &[u8]) -> usize
    ensures upper_bound { result ≤ 65537 }
    ensures value { result ≡ lent_places handed.now }
{
    number_in(handed, 0, 4, 65537)
}

// How many lengths there are.
fn length_count(handed: &[u8]) -> usize
    ensures upper_bound { result ≤ 16 }
    ensures value { result ≡ length_count handed.now }
{
    number_in(handed, 4, 1, MOST_LENGTHS as u64)
}

// The lengths, put into the first places of a lent list, and how many there are.
pub fn read_lengths(handed: &[u8], lengths: &mut [usize]) -> usize
    requires { 16 ≤ length lengths.old }
    ensures value { result ≡ length_count handed.now }
    ensures filled { Filled (length_at handed.now) result lengths.old lengths.new }
{
    let count = length_count(handed);
    let filled = &mut lengths[..count];
    for (i, length) in filled.iter_mut().enumerate() {
        *length = number_in(handed, 5 + 8 * i, 8, u64::MAX);
    }
    count
}

// All that is left after a place; nothing, where that is past the end.
fn bytes_from(handed: &[u8], at: usize) -> &[u8]
    ensures { result.now ≡ drop at handed.now }
{
    &handed[at.min(handed.len())..]
}

// The bytes of several patterns, which follow the lengths.
pub fn pattern_bytes(handed: &[u8]) -> &[u8]
    ensures { result.now ≡ pattern_bytes handed.now }
{
    bytes_from(handed, 5 + 8 * length_count(handed))
}

// The one pattern of a search with its marked sheet.
pub fn marked_pattern(handed: &[u8]) -> &[u8]
    ensures { result.now ≡ marked_pattern handed.now }
{
    bytes_from(handed, 4)
}

// Where the search for the first match begins: any number of 8 bytes, also one past every text.
pub fn start_position(handed: &[u8]) -> usize
    ensures { result ≡ start_position handed.now }
{
    number_in(handed, 0, 8, u64::MAX)
}

// Its pattern.
pub fn pattern_after_start(handed: &[u8]) -> &[u8]
    ensures { result.now ≡ pattern_after_start handed.now }
{
    bytes_from(handed, 8)
}
