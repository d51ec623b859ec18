// Which patterns are taken together, and which texts and lists with them: document 02, T-01 and, for 13, T-07, and document 01, "When a call says no",
// 1, 2, 6 and 7.

#![tactic(auto)]

ghost use Rattle.std.specs.Prelude.{◌≡◌, not, ◌++◌, ◌≤◌, eqb};
ghost use Rattle.jumbled.specs.Refusals.{given, any_of, bad_length, each_length_tests, set_tests, several_pattern_tests};
ghost use Rattle.answers.specs.Numbers.{answer_number};
ghost use Rattle.admit_several.specs.Limits.{several_limit_tests};

use admit_pattern::LONGEST_PATTERN;
use answers::{Admission, Refusal};

// The most patterns.
pub const MOST_PATTERNS: usize = 8;

// Every length is one that a pattern may have.
fn lengths_right(lengths: &[usize]) -> bool
    ensures { result ≡ not (any_of bad_length lengths.now) }
{
    lengths.iter().all(|m| 0 < *m && *m <= LONGEST_PATTERN)
}

// Every length is m.
fn all_alike(lengths: &[usize], m: usize) -> bool
    ensures { result ≡ not (any_of (λ x. not (eqb x m)) lengths.now) }
{
    lengths.iter().all(|length| *length == m)
}

// Of several patterns, for which so many bytes are handed in: 1 of any of them, then 12, the first that applies.
fn admit_set(lengths: &[usize], bytes: usize) -> Admission
    ensures { answer_number result ≡ given (each_length_tests lengths.now ++ set_tests lengths.now bytes) }
{
    if !lengths_right(lengths) {
        return Err(Refusal::PatternLength);
    }
    let count = lengths.len();
    if count == 0 || MOST_PATTERNS < count {
        return Err(Refusal::PatternSet);
    }
    let m = lengths[0];
    // Lengths that are alike are summed by a product, which eight times 64 bounds.
    if !all_alike(lengths, m) || count * m != bytes {
        return Err(Refusal::PatternSet);
    }
    Ok(())
}

// Of several patterns, whose bytes follow one another, and their tolerance: 1, 12, 13, 2, the first that applies.
pub fn admit(lengths: &[usize], patterns: &[u8], k: u8) -> Admission
    ensures { answer_number result ≡ given (several_pattern_tests lengths.now patterns.now k) }
{
    admit_set(lengths, patterns.len())?;
    if 0 < table_parikh::lost_hours(patterns) {
        return Err(Refusal::LostHourInPattern);
    }
    if lengths[0] <= k as usize {
        return Err(Refusal::ToleranceTooLarge);
    }
    Ok(())
}

// Of a text that is searched for so many patterns, and two lists of so many places: 6, 7. The caller says how long the longest text is.
#[tactic(auto, unfolding(jumbled::specs::Refusals::given, jumbled::specs::Refusals::long_tests, jumbled::specs::Refusals::pair_place_tests, crate::specs::Limits::several_limit_tests))]
pub fn limits(
    longest: usize,
    text: usize,
    patterns: usize,
    positions: usize,
    numbers: usize,
) -> Admission
    requires { (longest ≤ 65536) × (patterns ≤ 8) }
    ensures { answer_number result ≡ given (several_limit_tests longest text patterns positions numbers) }
{
    if longest < text {
        return Err(Refusal::TextTooLong);
    }
    let most = text * patterns;
    if positions < most || numbers < most {
        return Err(Refusal::TooFewPlaces);
    }
    Ok(())
}
