// The stream of stored cases that the program vectors reads (tools/vectors_stream.py): made bytes, numbers and texts here, cases and what they hand
// over beside a pattern in a module each. An item that can't be read counts as 0 or as empty and leads to a place past the stream's end, and so does
// every item after it: whoever reads a case asks once, at its end, whether all of it could be read.

#![tactic(auto)]

ghost use Rattle.std.specs.Prelude.{◌≡◌, ◌≤◌, length, replicate};
ghost use Rattle.image_form.specs.Decode.{from_low_first};
ghost use Rattle.tests_stream.specs.Fillings.{Filled, known_place, known_byte, letter_index, letter_at, made_length};
ghost use Rattle.tests_stream.specs.Reading.{PartWithin, part_at, number_at};
ghost use Rattle.tests_stream.specs.Texts.{Spelled, spelling, made_spelling, TextRead};

pub mod cases;
pub mod patterns;

// The longest list that a call is lent.
const LONGEST_LIST: usize = 65537;

// Room for it, every place 0.
pub fn list_room() -> [u32; LONGEST_LIST]
    ensures { (result ≡ replicate 65537 0) × (65537 ≡ length result) }
{
    lent::room::<u32, LONGEST_LIST>(0)
}

// The longest text, and the longest buffer of a sheet.
const LONGEST_BYTES: usize = 65537;

// Room for either.
pub fn byte_room() -> [u8; LONGEST_BYTES]
    ensures { (result ≡ replicate 65537 0) × (65537 ≡ length result) }
{
    lent::room::<u8, LONGEST_BYTES>(0)
}

// Each of the first places gets a number that tells which place it is, so that a place that a call should have left alone shows.
// Lists, buffers and lengths are filled by a loop each, under the one law `Filling`: a function for all three would have to take the numbers by a
// closure and say of any type that it holds numbers, which is more than the three lines that it saves.
pub fn fill_list(list: &mut [u32], places: usize)
    requires { (places ≤ 65537) × (places ≤ length list.old) }
    ensures { Filled known_place places list.old list.new }
{
    let filled = &mut list[..places];
    for (i, place) in filled.iter_mut().enumerate() {
        *place = ((i * 2654435761 + 12345) % 4294967296) as u32;
    }
}

// The same for a buffer.
pub fn fill_buffer(buffer: &mut [u8], room: usize)
    requires { (room ≤ 65537) × (room ≤ length buffer.old) }
    ensures { Filled known_byte room buffer.old buffer.new }
{
    let filled = &mut buffer[..room];
    for (i, place) in filled.iter_mut().enumerate() {
        *place = ((i * 37 + 11) % 256) as u8;
    }
}

// Which letter comes next: they are picked by the numbers drawn, or repeated.
fn letter_index(picked: bool, x: u64, i: usize) -> usize
    ensures { result ≡ letter_index picked x i }
{
    if picked { (x / 65536) as usize } else { i }
}

// A text of `len` bytes, made of a few letters. Its length is handed back: 0 where there are no letters.
fn put_letters(letters: &[u8], picked: bool, seed: u64, len: usize, text: &mut [u8]) -> usize
    requires { len ≤ length text.old }
    ensures upper_bound { result ≤ len }
    ensures value { result ≡ made_length letters.now len }
    ensures filled { Filled (letter_at letters.now picked seed) result text.old text.new }
{
    if letters.is_empty() {
        return 0;
    }
    let mut x = seed % 2147483648;
    let filled = &mut text[..len];
    for (i, byte) in filled.iter_mut().enumerate() {
        x = (x * 1103515245 + 12345) % 2147483648;
        *byte = letters[letter_index(picked, x, i) % letters.len()];
    }
    len
}

// A place past the end of every stream.
const NOWHERE: usize = usize::MAX;

// A part of the stream, and the place after it.
#[derive(Drop)]
struct Part {
    start: usize,
    end: usize,
    next: usize,
}

#[derive(Drop)]
pub struct Number {
    pub value: u64,
    pub next: usize,
}

// A text that was put into the first bytes of a lent buffer.
#[derive(Drop)]
struct Text {
    len: usize,
    next: usize,
}

// The next `count` bytes, or none.
fn take_part(stream: &[u8], at: usize, count: usize) -> Part
    ensures part_within { PartWithin (length stream.now) count result.start result.end }
    ensures value { result ≡ part_at stream.now at count }
{
    if at <= stream.len() {
        if count <= stream.len() - at {
            return Part {
                start: at,
                end: at + count,
                next: at + count,
            };
        }
    }
    Part {
        start: 0,
        end: 0,
        next: NOWHERE,
    }
}

// The number that up to 8 bytes write, low byte first.
fn from_low_first(bytes: &[u8]) -> u64
    requires { length bytes.now ≤ 8 }
    ensures { result ≡ from_low_first bytes.now }
{
    let mut number = [0; 8];
    number[..bytes.len()].copy_from_slice(bytes);
    u64::from_le_bytes(number)
}

// A number of `width` bytes that is `most` at most; of 0 bytes it is 0.
pub fn read_number(stream: &[u8], at: usize, width: usize, most: u64) -> Number
    requires { width ≤ 8 }
    ensures value_le_most { result.value ≤ most }
    ensures value { result ≡ number_at stream.now at width most }
{
    let part = take_part(stream, at, width);
    let value = from_low_first(&stream[part.start..part.end]);
    if most < value {
        return Number {
            value: 0,
            next: NOWHERE,
        };
    }
    Number {
        value,
        next: part.next,
    }
}

// A text of `len` bytes that is made of `count` letters, which stand in the stream.
fn spell(
    stream: &[u8],
    at: usize,
    count: usize,
    picked: bool,
    seed: u64,
    len: usize,
    text: &mut [u8],
) -> Text
    requires { len ≤ length text.old }
    ensures len_le_len { result.len ≤ len }
    ensures spelled { Spelled stream.now (spelling at count picked seed len) result text.old text.new }
{
    let letters = take_part(stream, at, count);
    let made = put_letters(&stream[letters.start..letters.end], picked, seed, len, text);
    if made < len {
        return Text {
            len: made,
            next: NOWHERE,
        };
    }
    Text {
        len: made,
        next: letters.next,
    }
}

// A text in the form 1 or 2, which say how many letters there are.
fn made_text(stream: &[u8], at: usize, form: usize, longest: usize, text: &mut [u8]) -> Text
    requires { (1 ≤ form) × ((form ≤ 2) × (longest ≤ length text.old)) }
    ensures len_le_longest { result.len ≤ longest }
    ensures spelled { Spelled stream.now (made_spelling stream.now at form longest) result text.old text.new }
{
    let len = read_number(stream, at, 4, longest as u64);
    let seed = read_number(stream, len.next, (form - 1) * 4, u32::MAX as u64);
    let count = read_number(stream, seed.next, 1, u8::MAX as u64);
    spell(
        stream,
        count.next,
        count.value as usize,
        form == 2,
        seed.value,
        len.value as usize,
        text,
    )
}

// A text of at most `longest` bytes, in any of its three forms; where that is 0 there is none to read.
fn read_text(stream: &[u8], at: usize, longest: usize, text: &mut [u8]) -> Text
    requires { longest ≤ length text.old }
    ensures len_le_longest { result.len ≤ longest }
    ensures text_read { TextRead stream.now at longest result text.old text.new }
{
    if longest == 0 {
        return Text { len: 0, next: at };
    }
    let form = read_number(stream, at, 1, 2);
    if 0 < form.value {
        return made_text(stream, form.next, form.value as usize, longest, text);
    }
    let size = read_number(stream, form.next, 2, longest as u64);
    let len = size.value as usize;
    spell(stream, size.next, len, false, 0, len, text)
}
