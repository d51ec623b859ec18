// Writes the saved form of a search into a lent buffer, if it has room: document 01, "The saved image" and "A search and its calls", and document 02,
// T-06. First the bytes of the contents, then the whole image, then the call's part of the work.

#![tactic(auto)]

ghost use Rattle.std.specs.Prelude.{◌≡◌, ◌+◌, ◌≤◌, length};
ghost use Rattle.image_form.specs.Image.{parts_with, contents};
ghost use Rattle.image_write.specs.Writing.{Encodable, ImageWritten};
ghost use Rattle.image_write.specs.Saved.{Saved};

use answers::{Refusal, Saving};
use image_form::HEAD;
use lent::writer::Writer;

// The first byte and the four entries of an image, with 0 for the lengths of pattern and tail: bytes 2 and 3, 11 and 12.
const CONTENTS: [u8; HEAD] = [4, 1, 0, 0, 2, 2, 0, 3, 4, 0, 4, 0, 0];

// The same with these lengths, whose high bytes are 0.
fn contents_of(pattern: usize, tail: usize) -> [u8; HEAD]
    requires { (pattern ≤ 64) × (tail ≤ 64) }
    ensures { result ≡ contents pattern tail }
{
    let mut bytes = CONTENTS;
    bytes[2] = pattern as u8;
    bytes[11] = tail as u8;
    bytes
}

// How long the image of a pattern and a tail of some lengths is: k, method and n take 6 bytes.
fn image_length(pattern: usize, tail: usize) -> usize
    requires { (pattern ≤ 64) × (tail ≤ 64) }
    ensures { result ≡ 13 + 6 + pattern + tail }
{
    HEAD + 6 + pattern + tail
}

// The image of a search's parts, at the start of the buffer; its length is given.
fn encode<'a>(
    pattern: &'a [u8],
    k: u8,
    method: u8,
    total: u32,
    tail: &'a [u8],
    buffer: &mut [u8],
) -> usize
    requires { Encodable pattern.now tail.now buffer.old }
    ensures { ImageWritten (parts_with pattern.now k method total tail.now) buffer.old buffer.new result }
{
    let mut writer = Writer::new(buffer, 0);
    writer.copy(&contents_of(pattern.len(), tail.len()));
    writer.copy(pattern);
    writer.copy(&[k, method]);
    writer.copy(&total.to_le_bytes());
    writer.copy(tail);
    writer.at
}

// The image of the parts in the buffer's first bytes; 10 where it is longer than the buffer.
pub fn save_parts<'a>(
    pattern: &'a [u8],
    k: u8,
    method: u8,
    total: u32,
    tail: &'a [u8],
    buffer: &mut [u8],
) -> Saving
    requires { (length pattern.now ≤ 64) × (length tail.now ≤ 64) }
    ensures { Saved (parts_with pattern.now k method total tail.now) buffer.old buffer.new result }
{
    if buffer.len() < image_length(pattern.len(), tail.len()) {
        return Err(Refusal::BufferTooShort);
    }
    Ok(encode(pattern, k, method, total, tail, buffer))
}
