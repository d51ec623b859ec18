// The stored cases: their kinds and arguments, read from the stream (tools/vectors_stream.py).
ghost use Rattle.std.specs.Prelude.{length, ◌≡◌, ◌≤◌};
ghost use Rattle.tests_stream.specs.Kinds.{Names};
ghost use Rattle.tests_stream.specs.Arguments.{arguments, shape_of, CaseTextRead, CaseRead, StoredCase};
ghost use Rattle.tests_stream.specs.Cases.{Readable, Lendable, fields_of};

use crate::{NOWHERE, Text, read_number, read_text, spell};

// What a case does, by the stream's numbers.
#[derive(Clone, Copy, Debug, PartialEq, Eq)]
pub enum Kind {
    // a number that no kind has; nothing follows it
    Unknown = 0,
    Whole = 1,
    Open = 2,
    Feed = 3,
    SetMethod = 4,
    Save = 5,
    Load = 6,
    // fills in a search by hand, and has no outcome
    Hand = 7,
    // mixlist's function, the bits of the fields, whether method 5 is exact
    Report = 8,
    FieldBits = 9,
    Exact = 10,
    // several patterns, with what stands before them
    Several = 11,
    // a search with its marked sheet, whose buffer's length stands before the pattern
    Marked = 12,
    // the first match from a position on, which stands before the pattern; no list is lent
    First = 13,
    // readings that were sent again
    Resent = 14,
}

// A number that is no kind's.
#[derive(Clone, Copy, Debug, PartialEq, Eq)]
pub struct UnknownKind;

impl TryFrom<u8> for Kind {
    type Error = UnknownKind;

    ghost try_from_gives = { Names };

    fn try_from(number: u8) -> Result<Kind, UnknownKind> {
        match number {
            1 => Ok(Kind::Whole),
            2 => Ok(Kind::Open),
            3 => Ok(Kind::Feed),
            4 => Ok(Kind::SetMethod),
            5 => Ok(Kind::Save),
            6 => Ok(Kind::Load),
            7 => Ok(Kind::Hand),
            8 => Ok(Kind::Report),
            9 => Ok(Kind::FieldBits),
            10 => Ok(Kind::Exact),
            11 => Ok(Kind::Several),
            12 => Ok(Kind::Marked),
            13 => Ok(Kind::First),
            14 => Ok(Kind::Resent),
            _ => Err(UnknownKind),
        }
    }
}

// The bytes of a search that is filled in by hand.
const SEARCH_BYTES: usize = 149;

// Which arguments a kind of case has: the longest pattern and the longest text, 0 where it has none; the widths of k, of the method and of
// the number of places; and the most places.
#[derive(Clone, Copy, Debug, PartialEq, Eq)]
struct Shape {
    pattern: usize,
    text: usize,
    k: usize,
    method: usize,
    places: usize,
    most: u64,
}

// A case's kind and arguments. Its pattern and its text were put into the first bytes of lent buffers; `places` is the length of the list or the
// buffer that its call is lent.
#[derive(Clone, Copy)]
pub struct Case {
    pub kind: Kind,
    pub pattern: usize,
    pub k: u8,
    pub method: u8,
    pub text: usize,
    pub places: usize,
    pub next: usize,
}

// The fields of a search that a case fills in by hand: any numbers, and all the bytes that a search stores.
#[derive(Drop)]
pub struct Fields {
    pub pattern: [u8; 64],
    pub pattern_len: usize,
    pub k: u8,
    pub method: u8,
    pub total: u32,
    pub tail: [u8; 63],
    pub tail_len: usize,
}

fn arguments(
    pattern: usize,
    text: usize,
    k: usize,
    method: usize,
    places: usize,
    most: u64,
) -> Shape
    ensures { result ≡ arguments pattern text k method places most }
{
    Shape {
        pattern,
        text,
        k,
        method,
        places,
        most,
    }
}

// The arguments of each kind. Patterns, texts and lists may be longer than the calls take, so that they can be refused.
#[tactic(auto, unfolding(crate::specs::Arguments::shape_of))]
fn shape_of(kind: Kind) -> Shape
    ensures readable { Readable result }
    ensures value { result ≡ shape_of kind }
{
    match kind {
        Kind::Unknown => arguments(0, 0, 0, 0, 0, 0),
        Kind::Whole => arguments(300, 65537, 1, 1, 4, 65537),
        Kind::Open => arguments(300, 0, 1, 1, 0, 0),
        Kind::Feed => arguments(0, 65537, 0, 0, 4, 65537),
        Kind::SetMethod => arguments(0, 0, 0, 1, 0, 0),
        Kind::Save => arguments(0, 0, 0, 0, 2, 512),
        Kind::Load => arguments(0, 512, 0, 0, 0, 0),
        Kind::Hand => arguments(0, 0, 0, 0, 0, 0),
        Kind::Report => arguments(0, 65537, 0, 0, 0, 0),
        Kind::FieldBits => arguments(64, 0, 1, 1, 0, 0),
        Kind::Exact => arguments(64, 0, 0, 0, 0, 0),
        Kind::Several => arguments(1024, 65537, 1, 0, 4, 65537),
        Kind::Marked => arguments(304, 65537, 1, 1, 4, 65537),
        Kind::First => arguments(308, 65537, 1, 1, 0, 0),
        Kind::Resent => arguments(0, 65537, 0, 0, 0, 0),
    }
}

// The text of a case; a search filled in by hand is one of so many bytes.
fn read_case_text(stream: &[u8], at: usize, kind: Kind, longest: usize, text: &mut [u8]) -> Text
    requires { (longest ≤ length text.old) × (149 ≤ length text.old) }
    ensures { CaseTextRead stream.now at kind longest result text.old text.new }
{
    match kind {
        Kind::Hand => spell(stream, at, SEARCH_BYTES, false, 0, SEARCH_BYTES, text),
        _ => read_text(stream, at, longest, text),
    }
}

// The arguments of a case of a kind.
fn read_arguments(stream: &[u8], at: usize, kind: Kind, pattern: &mut [u8], text: &mut [u8]) -> Case
    requires { (1024 ≤ length pattern.old) × (65537 ≤ length text.old) }
    ensures lendable { Lendable result.pattern pattern.new result.text text.new result.places }
    ensures case_read { CaseRead stream.now at kind result pattern.old pattern.new text.old text.new }
{
    let shape = shape_of(kind);
    let sought = read_text(stream, at, shape.pattern, pattern);
    let k = read_number(stream, sought.next, shape.k, 255);
    let method = read_number(stream, k.next, shape.method, 255);
    let searched = read_case_text(stream, method.next, kind, shape.text, text);
    let places = read_number(stream, searched.next, shape.places, shape.most);
    Case {
        kind,
        pattern: sought.len,
        k: k.value as u8,
        method: method.value as u8,
        text: searched.len,
        places: places.value as usize,
        next: places.next,
    }
}

// The case at a place. A number that is no kind's can't be read.
pub fn read_case(stream: &[u8], at: usize, pattern: &mut [u8], text: &mut [u8]) -> Case
    requires { (1024 ≤ length pattern.old) × (65537 ≤ length text.old) }
    ensures lendable { Lendable result.pattern pattern.new result.text text.new result.places }
    ensures stored_case { StoredCase stream.now at result pattern.old pattern.new text.old text.new }
{
    let number = read_number(stream, at, 1, 14);
    match Kind::try_from(number.value as u8) {
        Ok(kind) => read_arguments(stream, number.next, kind, pattern, text),
        Err(_) => read_arguments(stream, NOWHERE, Kind::Unknown, pattern, text),
    }
}

// The fields that the text of such a case holds.
pub fn read_fields(bytes: &[u8]) -> Fields
    ensures { result ≡ fields_of bytes.now }
{
    let mut pattern = [0u8; 64];
    let mut tail = [0u8; 63];
    spell(bytes, 0, 64, false, 0, 64, &mut pattern);
    spell(bytes, 78, 63, false, 0, 63, &mut tail);
    let pattern_len = read_number(bytes, 64, 8, 18446744073709551615);
    let k = read_number(bytes, 72, 1, 255);
    let method = read_number(bytes, 73, 1, 255);
    let total = read_number(bytes, 74, 4, 4294967295);
    let tail_len = read_number(bytes, 141, 8, 18446744073709551615);
    Fields {
        pattern,
        pattern_len: pattern_len.value as usize,
        k: k.value as u8,
        method: method.value as u8,
        total: total.value as u32,
        tail,
        tail_len: tail_len.value as usize,
    }
}
