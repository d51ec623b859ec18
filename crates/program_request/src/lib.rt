// What the program mixlist's input asks for: first its first line and the fields of that, then all of it (document 01, "The program").

#![tactic(auto)]

ghost use Rattle.std.specs.Prelude.{◌≡◌, false, ◌==◌, MatchOption, position};
ghost use Rattle.program_request.specs.Line.{has, method_form, tolerance_form};
ghost use Rattle.program_request.specs.Reading.{Cut, Spelled, line_meaning, line_parts};
ghost use Rattle.program_request.specs.Request.{less_newline};
ghost use Rattle.program_request.specs.Parsing.{Parses};

use answers::Refusal;

// The place of the first `sought`.
fn find(bytes: &[u8], sought: u8) -> Option<usize>
    ensures { result ≡ position (λ byte. byte == sought) bytes.now }
{
    bytes.iter().position(|byte| *byte == sought)
}

// What stands before the first `sought` and what stands after it.
fn parted(bytes: &[u8], sought: u8) -> Option<(&[u8], &[u8])>
    ensures { MatchOption result (has sought bytes.now ≡ false) (λ parts. Cut sought bytes.now parts.0.now parts.1.now) }
{
    let at = find(bytes, sought)?;
    Some((&bytes[..at], &bytes[at + 1..]))
}

// The number in the method's field, where that has its form: one digit.
fn method_number(field: &[u8]) -> Option<u8>
    ensures { Spelled method_form field.now result }
{
    match field {
        [digit] if digit.is_ascii_digit() => Some(*digit - b'0'),
        _ => None,
    }
}

// The number in k's field, where that has its form: one digit, or two of which the first is no zero.
fn tolerance_number(field: &[u8]) -> Option<u8>
    ensures { Spelled tolerance_form field.now result }
{
    match field {
        [_] => method_number(field),
        [tens, ones] if *tens != b'0' && tens.is_ascii_digit() && ones.is_ascii_digit() => {
            Some((*tens - b'0') * 10 + (*ones - b'0'))
        }
        _ => None,
    }
}

// The fields of the first line.
struct Line<'a> {
    method: u8,
    k: u8,
    pattern: &'a [u8],
}

// Reads the first line, which comes without its newline; none where it isn't of the form asked for.
fn first_line(line: &[u8]) -> Option<Line<'_>>
    ensures { line_meaning result ≡ line_parts line.now }
{
    let (method_field, fields) = parted(line, b' ')?;
    let (tolerance_field, pattern) = parted(fields, b' ')?;
    let method = method_number(method_field)?;
    let k = tolerance_number(tolerance_field)?;
    Some(Line { method, k, pattern })
}

// The longest input that the program takes.
pub const LONGEST_INPUT: usize = 16384;

// What an input asks for. The pattern and the text are parts of it: the pattern stands from `from` up to the newline at `line_end`, the text after that
// newline up to `end`.
#[derive(Clone, Copy)]
pub struct Request<'a> {
    pub method: u8,
    pub k: u8,
    pub pattern: &'a [u8],
    pub text: &'a [u8],
    pub from: usize,
    pub line_end: usize,
    pub end: usize,
}

// The text, from what follows the first line: one last newline is no part of it.
fn less_newline(rest: &[u8]) -> &[u8]
    ensures { result.now ≡ less_newline rest.now }
{
    match rest.split_last() {
        Some((last, text)) if *last == b'\n' => text,
        _ => rest,
    }
}

// Reads the program's input: its length is tested before its first line.
pub fn parse(input: &[u8]) -> Result<Request<'_>, Refusal>
    ensures { Parses input.now result }
{
    if input.len() > LONGEST_INPUT {
        return Err(Refusal::TextTooLong);
    }
    let Some((line, rest)) = parted(input, b'\n') else {
        return Err(Refusal::BadRequest);
    };
    let Some(Line { method, k, pattern }) = first_line(line) else {
        return Err(Refusal::BadRequest);
    };
    let text = less_newline(rest);
    Ok(Request {
        method,
        k,
        pattern,
        text,
        from: line.len() - pattern.len(),
        line_end: line.len(),
        end: line.len() + 1 + text.len(),
    })
}
