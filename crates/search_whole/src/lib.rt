// Whole search: document 01, "A search and its calls". Its tests and its steps are functions of their own, for calls that test more in between; no
// caller of the engine needs these two.

#![tactic(auto)]

ghost use Rattle.jumbled.specs.Refusals.{given, whole_tests};
ghost use Rattle.methods.specs.Numbers.{method_number};
ghost use Rattle.admit_pattern.specs.Admits.{Admits};
ghost use Rattle.search_whole.specs.Whole.{Taken, Searched, Whole};

use admit_pattern::Admitted;
use answers::{Answer, Refusal};
use lent::SearchCounts;

// The longest text.
pub const LONGEST_TEXT: usize = 65536;

// Of a pattern, a tolerance, a method, and a text and a list of some lengths: those of open, 6, 7, the first that applies.
pub fn admit(
    pattern: &[u8],
    k: u8,
    method: u8,
    bytes: usize,
    places: usize,
) -> Result<Admitted, Refusal>
    ensures { Admits pattern.now method (given (whole_tests pattern.now k method bytes places)) result }
{
    let admitted = admit_pattern::admit(pattern, k, method)?;
    admit_chunk::limits(LONGEST_TEXT, 0, bytes, places)?;
    Ok(admitted)
}

// The method's steps over all of a text that is not refused, the positions in the list's first places.
pub fn search_accepted(
    pattern: &[u8],
    admitted: &Admitted,
    k: u8,
    text: &[u8],
    list: &mut [u32],
) -> SearchCounts
    requires { Taken pattern.now admitted.now k text.now list.old }
    ensures { Searched pattern.now k (method_number admitted.now.method) text.now list.old list.new result }
{
    chunk_search::search_chunk(
        pattern,
        &admitted.counts,
        k,
        admitted.method,
        &text[..0],
        text,
        0,
        list,
    )
}

// All of the text at once, its positions in the list's first places.
pub fn whole(pattern: &[u8], k: u8, method: u8, text: &[u8], list: &mut [u32]) -> Answer
    ensures { Whole pattern.now k method text.now list.old list.new result }
{
    let admitted = admit(pattern, k, method, text.len(), list.len())?;
    Ok(search_accepted(pattern, &admitted, k, text, list))
}
