// A search for several patterns in one pass: document 02, T-01.

#![tactic(auto)]

ghost use Rattle.several.specs.Whole.{WholeSeveral};

pub use answers::{Answer, Refusal, number_of};
pub use lent::SearchCounts;

// All of the text at once, for up to eight patterns of one length: their bytes follow one another, and each has its length. The lists' first places
// get the positions and, beside each of them, the number of the pattern that matches there, from 1.
pub fn whole(
    patterns: &[u8],
    lengths: &[usize],
    k: u8,
    text: &[u8],
    positions: &mut [u32],
    numbers: &mut [u32],
) -> Answer
    ensures { WholeSeveral patterns.now lengths.now k text.now positions.old positions.new
        numbers.old numbers.new result }
{
    admit_several::admit(lengths, patterns, k)?;
    let count = lengths.len();
    let m = lengths[0];
    admit_several::limits(
        search_whole::LONGEST_TEXT,
        text.len(),
        count,
        positions.len(),
        numbers.len(),
    )?;
    let fields = several_fields::fields_for(count, m - k as usize);
    // One less than the top bit in every field; each pattern adds what it has of a byte.
    let mut rooms = [fields.tops - fields.ones; 256];
    several_fields::place_patterns(patterns, m, count, fields, &mut rooms);
    Ok(several_pass::pass(m, count, fields, &mut rooms, text, positions, numbers))
}
