// A whole search and its marked sheet: document 02, T-02.

#![tactic(auto)]

ghost use Rattle.sheet.specs.Whole.{WholeSheet};

pub use answers::{Refusal, SheetAnswer, SheetCounts, number_of};

// All of the text at once: the positions in the list's first places, and their sheet in the buffer's first bytes.
pub fn whole(
    pattern: &[u8],
    k: u8,
    method: u8,
    text: &[u8],
    list: &mut [u32],
    buffer: &mut [u8],
) -> SheetAnswer
    ensures { WholeSheet pattern.now k method text.now list.old list.new buffer.old
        buffer.new result }
{
    let admitted = search_whole::admit(pattern, k, method, text.len(), list.len())?;
    // Counted before the search, which writes the list: a sheet that is too long must leave the list as it was.
    let lines = sheet_count::count_matches(pattern, &admitted.counts, k as usize, text);
    if buffer.len() < sheet_write::sheet_length(lines) {
        return Err(Refusal::BufferTooShort);
    }
    let searched = search_whole::search_accepted(pattern, &admitted, k, text, list);
    let len = sheet_write::write_sheet(pattern.len(), text, &list[..lines], buffer);
    Ok(SheetCounts {
        found: searched.found,
        inspections: searched.inspections,
        len,
    })
}
