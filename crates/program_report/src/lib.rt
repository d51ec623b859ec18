// What the program mixlist prints for its input, as a function on slices (document 01, "The program").

#![tactic(auto)]

ghost use Rattle.std.specs.Prelude.{◌≤◌, length};
ghost use Rattle.lent.specs.Written.{Written};
ghost use Rattle.program_report.specs.Output.{AnswerWritten, output};
ghost use Rattle.program_report.specs.Reads.{ReadInto, ReportsRead};

use answers::number_of;
use program_lines::{write_found, write_refusal};
use program_request::{LONGEST_INPUT, Request};

// How many bytes of its input the program reads: one more than the longest that it takes. These decide what it prints (`output-cut`).
pub const INPUT_ROOM: usize = LONGEST_INPUT + 1;

// A buffer that has room for every output.
pub const OUTPUT_ROOM: usize = 98560;

// Answers a request. The list has a place for each byte of the longest input, so a whole search never lacks places.
fn answer_request(request: Request, buffer: &mut [u8]) -> usize
    requires { (length request.text.now ≤ 16384) × (98416 ≤ length buffer.old) }
    ensures { AnswerWritten request.entry buffer.old buffer.new result }
{
    let Request {
        method,
        k,
        pattern,
        text,
        ..
    } = request;
    let mut list = [0u32; LONGEST_INPUT];
    match search_whole::whole(pattern, k, method, text, &mut list) {
        Ok(counts) => write_found(
            pattern,
            k,
            method,
            &list,
            counts.found,
            counts.inspections,
            buffer,
        ),
        Err(refusal) => write_refusal(number_of(refusal), buffer, 0),
    }
}

// The program's output for an input, in the buffer's first bytes; says how many they are. No output is longer than 98,416 bytes.
#[tactic(auto, using(crate::proofs::Answers::text_begins, crate::proofs::Answers::text_ends))]
pub fn report(input: &[u8], buffer: &mut [u8; OUTPUT_ROOM]) -> usize
    ensures { Written buffer.old 0 (output input.now) buffer.new result }
{
    match program_request::parse(input) {
        Ok(request) => answer_request(request, buffer),
        Err(early) => write_refusal(number_of(early), buffer, 0),
    }
}

// The program's output for an input, of which the first bytes were read into an array.
pub fn report_read(bytes: &[u8], read: usize, buffer: &mut [u8; OUTPUT_ROOM]) -> usize
    requires { ReadInto bytes.now read }
    ensures { ReportsRead bytes.now read buffer.old buffer.new result }
{
    report(&bytes[..read], buffer)
}
