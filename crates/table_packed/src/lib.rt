// The packed word of methods 2, 3 and 4: its start value, its top bits, and the tables of its fields, which go into arrays of the caller.

#![tactic(auto)]

ghost use Rattle.std.specs.Prelude.{◌≡◌, ◌+◌, ◌-◌, ◌^◌, ◌≤◌, replicate};
ghost use Rattle.table_widths.specs.Layouts.{layout};
ghost use Rattle.table_packed.specs.Word.{FieldPlaced, Packed, OwnTops, Placeable, SharedField, SharedTops};

use table_parikh::LOST_HOUR;
use table_widths::PatternFields;

// A field of the packed word, each number at the field's place: its start value, what an inspection adds, its top bit.
#[derive(Clone, Copy, Debug, PartialEq, Eq)]
pub struct Field {
    pub start: u64,
    pub unit: u64,
    pub top: u64,
}

// The field of width bits that starts at bit at, of a byte that the pattern has count times.
fn field_at(count: usize, width: usize, at: usize) -> Field
    requires { (1 ≤ width) × (at + width ≤ 64) × (count + 1 ≤ 2 ^ (width - 1)) }
    ensures { FieldPlaced count width at result }
{
    let top = 1u64 << (width - 1);
    Field {
        start: (top - (count as u64) - 1) << at,
        unit: 1u64 << at,
        top: top << at,
    }
}

// The field that all bytes share which the pattern lacks. It stands above the pattern's own.
pub fn shared_field(fields: &PatternFields) -> Field
    requires { Placeable fields.now }
    ensures { SharedField fields.now result }
{
    field_at(0, fields.shared_width(), fields.own_bits())
}

// The word before the first inspection, and the top bits of all fields.
#[derive(Clone, Copy, Debug, PartialEq, Eq)]
pub struct Word {
    pub start: u64,
    pub tops: u64,
}

// The word, and what an inspection of each byte adds: units is lent with the shared field's unit for every byte, the pattern's own bytes get theirs,
// and a lost hour adds nothing (document 02, T-07).
pub fn place_units(fields: &PatternFields, shared: Field, units: &mut [u64; 256]) -> Word
    requires { (Placeable fields.now) × (SharedField fields.now shared) × (units.old ≡ replicate 256 shared.unit) }
    ensures { Packed fields.now.pattern.now (layout fields.now) result units.new }
{
    let mut start = shared.start;
    let mut tops = shared.top;
    let mut at: usize = 0;
    // The byte is a place in two tables, one read and one written.
    for byte in fields.span.low..fields.span.past {
        let count = fields.counts[byte] as usize;
        if 0 < count {
            let width = fields.own_width(count);
            let field = field_at(count, width, at);
            start += field.start;
            units[byte] = field.unit;
            tops += field.top;
            at += width;
        }
    }
    units[LOST_HOUR as usize] = 0;
    Word { start, tops }
}

// The top bit of each byte's field, which method 4 tests: own_tops is lent with the shared field's for every byte. A lost hour has none to test, so
// that it is no error even where the shared field's top bit is set.
pub fn place_own_tops(fields: &PatternFields, own_tops: &mut [u64; 256])
    requires { (Placeable fields.now) × (SharedTops fields.now own_tops.old) }
    ensures { OwnTops fields.now.pattern.now (layout fields.now) own_tops.new }
{
    let mut at: usize = 0;
    // The byte is a place in two tables, one read and one written.
    for byte in fields.span.low..fields.span.past {
        let count = fields.counts[byte] as usize;
        if 0 < count {
            let width = fields.own_width(count);
            let field = field_at(count, width, at);
            own_tops[byte] = field.top;
            at += width;
        }
    }
    own_tops[LOST_HOUR as usize] = 0;
}
