// The pass of a search for several patterns (document 02, T-01; Mcount in document 000, section 2, algorithm 2). Two words are touched for each byte
// of the text, that of the byte that enters the window and that of the byte that leaves it, and one test tells whether any pattern is found.

#![tactic(auto)]

ghost use Rattle.several_pass.specs.Passing.{Notable, Notes, Startable, Starts, Passable, Passes};

use lent::SearchCounts;
use several_fields::Fields;

// The window at s beside the number of each pattern whose field in the word has its top bit set, in the lists' next places. The place after them
// is given.
fn note(
    word: u64,
    count: usize,
    s: usize,
    positions: &mut [u32],
    numbers: &mut [u32],
    at: usize,
) -> usize
    requires { Notable count s positions.old numbers.old at }
    ensures { Notes word count s at positions.old positions.new numbers.old numbers.new result }
{
    let mut next = at;
    // By number: a field is a place in the word, and its number goes into the list.
    for field in 0..count {
        if word & (128u64 << (8 * field)) != 0 {
            positions[next] = s as u32;
            numbers[next] = field as u32 + 1; // patterns are numbered from 1
            next += 1;
        }
    }
    next
}

// The window's word once the bytes of the first window but its last are taken, and the inspections that it took.
#[derive(Clone, Copy, Debug, PartialEq, Eq)]
pub struct Started {
    pub word: u64,
    pub inspections: usize,
}

fn start(m: usize, fields: Fields, text: &[u8], rooms: &mut [u64; 256]) -> Started
    requires { Startable m fields text.now rooms.old }
    ensures { Starts m fields text.now rooms.old rooms.new result }
{
    let mut word = fields.start;
    let mut inspections = 0;
    for byte in &text[..m - 1] {
        inspections += 1;
        word = several_fields::take(fields, word, *byte, rooms);
    }
    Started { word, inspections }
}

// All windows of a text, for count patterns of m bytes. What is found stands in the first places of both lists.
pub fn pass(
    m: usize,
    count: usize,
    fields: Fields,
    rooms: &mut [u64; 256],
    text: &[u8],
    positions: &mut [u32],
    numbers: &mut [u32],
) -> SearchCounts
    requires { Passable m count fields rooms.old text.now positions.old numbers.old }
    ensures { Passes m count fields rooms.old rooms.new text.now positions.old
        positions.new numbers.old numbers.new result }
{
    if text.len() < m {
        return SearchCounts {
            found: 0,
            inspections: 0,
        };
    }
    let started = start(m, fields, text, rooms);
    let mut word = started.word;
    let mut inspections = started.inspections;
    let mut at = 0;
    // By number: s goes into the list, and the bytes that enter and leave stand m - 1 apart.
    for s in 0..text.len() - m + 1 {
        inspections += 1; // the window's last byte
        word = several_fields::take(fields, word, text[s + m - 1], rooms);
        if word & fields.tops != 0 {
            at = note(word, count, s, positions, numbers, at);
        }
        word = several_fields::give_back(fields, word, text[s], rooms);
    }
    SearchCounts {
        found: at,
        inspections,
    }
}
