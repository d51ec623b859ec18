// The first match at or after a given position of a whole text: document 02, T-08.

#![tactic(auto)]

ghost use Rattle.first.specs.Call.{AtOrAfter};

pub use answers::{First, FirstAnswer, Refusal, number_of};

// The first window from a position on that is listed; from past the last window on there is none. The search is that of a feed, with no tail and the
// text from there on for its chunk: lent one place, it ends with the window that takes it, and reads nothing after that.
pub fn at_or_after(pattern: &[u8], k: u8, method: u8, text: &[u8], from: usize) -> FirstAnswer
    ensures { AtOrAfter pattern.now k method text.now from result }
{
    let len = text.len();
    // No list is handed in, so there is nothing for 7 to measure: it is asked about a list with a place for each byte.
    let admitted = search_whole::admit(pattern, k, method, len, len)?;
    let begun = from.min(len);
    let mut place = [0u32; 1];
    let searched = chunk_search::search_chunk(
        pattern,
        &admitted.counts,
        k,
        admitted.method,
        &text[..0],
        &text[begun..],
        begun,
        &mut place,
    );
    let position = if searched.found == 0 {
        None
    } else {
        Some(place[0] as usize)
    };
    Ok(First {
        position,
        inspections: searched.inspections, // with those of the window found
    })
}
