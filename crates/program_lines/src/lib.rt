// The lines of the program mixlist's output, and the words and numbers in base ten that they are made of, written into a lent buffer (document 01,
// "The program").

#![tactic(auto)]

ghost use Rattle.std.specs.Prelude.{◌++◌, ◌+◌, ◌≤◌, length, take};
ghost use Rattle.lent.specs.Written.{Written};
ghost use Rattle.lent.specs.Appended.{RoomFor, Appended};
ghost use Rattle.ascii.specs.Decimal.{decimal};
ghost use Rattle.program_lines.specs.Lines.{number_line, header, position_lines, counts_line, refusal_text, output_text, OutputWritten};

use lent::writer::Writer;

// Writes n in base ten. The digits in front of the last one are those of n / 10.
fn write_decimal(n: usize, writer: &mut Writer<'_>)
    requires { RoomFor writer.old (decimal n) }
    ensures { Appended writer.old (decimal n) writer.new }
{
    if 10 <= n {
        write_decimal(n / 10, writer);
    }
    writer.put(b'0' + (n % 10) as u8);
}

// Writes a word and n.
fn write_labeled(word: &[u8], n: usize, writer: &mut Writer<'_>)
    requires { RoomFor writer.old (word.now ++ decimal n) }
    ensures { Appended writer.old (word.now ++ decimal n) writer.new }
{
    writer.copy(word);
    write_decimal(n, writer);
}

// Writes a word, n and the newline that ends their line. The word may be empty.
fn write_labeled_line(word: &[u8], n: usize, writer: &mut Writer<'_>)
    requires { RoomFor writer.old (word.now ++ number_line n) }
    ensures { Appended writer.old (word.now ++ number_line n) writer.new }
{
    write_labeled(word, n, writer);
    writer.put(b'\n');
}

// Writes the line of a refusal.
pub fn write_refusal(number: usize, buffer: &mut [u8], at: usize) -> usize
    requires { at + length (refusal_text number) ≤ length buffer.old }
    ensures { Written buffer.old at (refusal_text number) buffer.new result }
{
    let mut writer = Writer::new(buffer, at);
    write_labeled_line(b"refused ", number, &mut writer);
    writer.at
}

// Writes the header line, which repeats the fields of the request.
fn write_header(pattern: &[u8], method: u8, k: u8, writer: &mut Writer<'_>)
    requires { RoomFor writer.old (header pattern.now k method) }
    ensures { Appended writer.old (header pattern.now k method) writer.new }
{
    writer.copy(b"mix ");
    writer.copy(pattern);
    write_labeled(b" method ", method as usize, writer);
    write_labeled_line(b" k ", k as usize, writer);
}

// Writes the positions, each as a line.
fn write_positions(positions: &[u32], writer: &mut Writer<'_>)
    requires { RoomFor writer.old (position_lines positions.now) }
    ensures { Appended writer.old (position_lines positions.now) writer.new }
{
    for position in positions {
        write_labeled_line(b"", *position as usize, writer);
    }
}

// Writes the last line: how many positions were found, and the inspections.
fn write_counts(found: usize, inspections: usize, writer: &mut Writer<'_>)
    requires { RoomFor writer.old (counts_line found inspections) }
    ensures { Appended writer.old (counts_line found inspections) writer.new }
{
    write_labeled(b"found ", found, writer);
    write_labeled_line(b" looks ", inspections, writer);
}

// Writes what was found: the header, the first `found` positions of the list, and the two counts.
pub fn write_found(
    pattern: &[u8],
    k: u8,
    method: u8,
    list: &[u32],
    found: usize,
    inspections: usize,
    buffer: &mut [u8],
) -> usize
    requires { (found ≤ length list.now) × (length (output_text pattern.now k method (take found list.now) inspections) ≤ length buffer.old) }
    ensures { OutputWritten pattern.now k method (take found list.now) inspections buffer.old buffer.new result }
{
    let mut writer = Writer::new(buffer, 0);
    write_header(pattern, method, k, &mut writer);
    write_positions(&list[..found], &mut writer);
    write_counts(found, inspections, &mut writer);
    writer.at
}
