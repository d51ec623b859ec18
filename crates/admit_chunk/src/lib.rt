// How long a text or a chunk may be, in itself, for the list and for the total n: document 01, "When a call says no", 6 to 8.

#![tactic(auto)]

ghost use Rattle.std.specs.Prelude.{◌≡◌};
ghost use Rattle.jumbled.specs.Refusals.{given};
ghost use Rattle.answers.specs.Numbers.{answer_number};
ghost use Rattle.admit_chunk.specs.Limits.{limit_tests};

use answers::{Admission, Refusal};

// The tests of a chunk's length and the list's places after total bytes: 6, 7, 8. The caller says how long the longest is.
#[tactic(auto, unfolding(jumbled::specs::Refusals::given, jumbled::specs::Refusals::place_tests, jumbled::specs::Refusals::total_tests, crate::specs::Limits::limit_tests))]
pub fn limits(longest: usize, total: u32, chunk: usize, places: usize) -> Admission
    ensures { answer_number result ≡ given (limit_tests longest total chunk places) }
{
    if longest < chunk {
        return Err(Refusal::TextTooLong);
    }
    if places < chunk {
        return Err(Refusal::TooFewPlaces);
    }
    if 4294967295 - (total as usize) < chunk {
        return Err(Refusal::TotalTooLarge);
    }
    Ok(())
}
