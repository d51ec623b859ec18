// The packed words of a search for several patterns (document 02, T-01; Mcount in document 000, section 2, algorithm 2). Each pattern has a field of
// eight bits, the first one the lowest. In the window's word a field's top bit says that the pattern is found. In a byte's word it says that the
// pattern has more of the byte than the window, so that one more would be acceptable, as a lost hour always is (document 02, T-07).

#![tactic(auto)]

ghost use Rattle.std.specs.Prelude.{◌*◌, ◌+◌, ◌≤◌, ◌<◌, ◌≡◌};
ghost use Rattle.several_fields.specs.Words.{FieldsFor, Placeable, units_added, Placing, Placed, Taking, Taken, Giving, Given};

use table_parikh::LOST_HOUR;

// What all words of a search have in common.
#[derive(Clone, Copy, Debug, PartialEq, Eq)]
pub struct Fields {
    // 1 in every field,
    pub ones: u64,
    // every field's top bit,
    pub tops: u64,
    // and the window's word before a byte is taken.
    pub start: u64,
}

// The fields of so many patterns, each of which has so many acceptable bytes to wait for.
pub fn fields_for(count: usize, waiting: usize) -> Fields
    requires { (count ≤ 8) × (waiting ≤ 64) }
    ensures { FieldsFor count waiting result }
{
    let mut ones: u64 = 0;
    for field in 0..count {
        ones += 1u64 << (8 * field);
    }
    Fields {
        ones,
        tops: ones * 128,
        start: ones * (128 - (waiting as u64)),
    }
}

// One pattern: each of its bytes adds a unit to the byte's word.
fn place_pattern(pattern: &[u8], unit: u64, rooms: &mut [u64; 256])
    requires { Placeable pattern.now unit rooms.old }
    ensures { rooms.new ≡ units_added pattern.now unit rooms.old }
{
    for byte in pattern {
        rooms[*byte as usize] += unit;
    }
}

// All patterns, which have m bytes each and follow one another. The rooms are lent with one less than the top bit in every field. A lost hour gets
// room for as many as a window has bytes.
pub fn place_patterns(
    patterns: &[u8],
    m: usize,
    count: usize,
    fields: Fields,
    rooms: &mut [u64; 256],
)
    requires { Placing patterns.now m count fields rooms.old }
    ensures { Placed patterns.now m count rooms.new }
{
    for field in 0..count {
        let pattern = &patterns[field * m..(field + 1) * m];
        place_pattern(pattern, 1u64 << (8 * field), rooms);
    }
    rooms[LOST_HOUR as usize] = fields.ones * 191; // one less than the top bit, and 64
}

// A byte enters the window: the word grows where it is acceptable.
pub fn take(fields: Fields, word: u64, byte: u8, rooms: &mut [u64; 256]) -> u64
    requires { Taking fields word byte rooms.old }
    ensures { Taken fields word byte rooms.old rooms.new result }
{
    let room = rooms[byte as usize];
    rooms[byte as usize] = room - fields.ones;
    word + ((room & fields.tops) >> 7)
}

// A byte leaves the window: the word shrinks where the byte was acceptable.
pub fn give_back(fields: Fields, word: u64, byte: u8, rooms: &mut [u64; 256]) -> u64
    requires { Giving fields word byte rooms.old }
    ensures { Given fields word byte rooms.old rooms.new result }
{
    let room = rooms[byte as usize] + fields.ones;
    rooms[byte as usize] = room;
    word - ((room & fields.tops) >> 7)
}
