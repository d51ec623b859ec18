// Writes the marked sheet (document 02, T-02) into a lent buffer: column by column, line by line, page by page.

#![tactic(auto)]

ghost use Rattle.std.specs.Prelude.{◌≡◌, map, ◌+◌, ◌≤◌, length};
ghost use mathlib.Core.List.{flat_map};
ghost use Rattle.lent.specs.Appended.{RoomFor, Appended};
ghost use Rattle.ascii.specs.Decimal.{decimal};
ghost use Rattle.sheet_form.specs.Sheet.{shown, right_aligned, left_aligned, line, line_at, page_count, sheet_bytes};
ghost use Rattle.sheet_write.specs.Writing.{LineFits, break_before, PageFits, SheetFits, SheetWritten};

use lent::writer::Writer;

const POSITION_COLUMN: usize = 10;

const WINDOW_COLUMN: usize = 64;
// The two columns, the blank between them, and the newline.
const LINE: usize = POSITION_COLUMN + 1 + WINDOW_COLUMN + 1;

const LINES_A_PAGE: usize = 50;

const PAGE_BREAK: u8 = 12;

// How a reading is printed.
fn shown_as(reading: u8) -> u8
    ensures { result ≡ shown reading }
{
    if 33 <= reading && reading <= 126 {
        reading
    } else {
        b'.'
    }
}

// A position, blanks to its left. Its last digit is the first to be known, so the column is filled from the right, digit by digit.
fn position_column(position: usize) -> [u8; POSITION_COLUMN]
    requires { length (decimal position) ≤ 10 }
    ensures { result ≡ right_aligned 10 (decimal position) }
{
    let mut column = [b' '; POSITION_COLUMN];
    let mut rest = position;
    let mut i = POSITION_COLUMN;
    while 10 <= rest {
        i -= 1;
        column[i] = b'0' + (rest % 10) as u8;
        rest = rest / 10;
    }
    i -= 1;
    column[i] = b'0' + rest as u8;
    column
}

// Readings as they are printed, blanks to their right.
fn window_column(window: &[u8]) -> [u8; WINDOW_COLUMN]
    requires { length window.now ≤ 64 }
    ensures { result ≡ left_aligned 64 (map shown window.now) }
{
    let mut column = [b' '; WINDOW_COLUMN];
    for (i, reading) in window.iter().enumerate() {
        column[i] = shown_as(*reading);
    }
    column
}

// Writes a window. Its column is made first, and appended as a whole: a byte at a time would move the writer on for each reading.
fn write_window(window: &[u8], writer: &mut Writer<'_>)
    requires { (length window.now ≤ 64) × RoomFor writer.old (left_aligned 64 (map shown window.now)) }
    ensures { Appended writer.old (left_aligned 64 (map shown window.now)) writer.new }
{
    writer.copy(&window_column(window));
}

// Writes the line of a position and its window.
fn write_line(position: usize, window: &[u8], writer: &mut Writer<'_>)
    requires { LineFits position window.now writer.old }
    ensures { Appended writer.old (line position window.now) writer.new }
{
    writer.copy(&position_column(position));
    writer.put(b' ');
    write_window(window, writer);
    writer.put(b'\n');
}

// Writes the lines of the positions on one page, for windows of m readings.
fn write_page(m: usize, text: &[u8], listed: &[u32], writer: &mut Writer<'_>)
    requires { PageFits m text.now listed.now writer.old }
    ensures { Appended writer.old (flat_map (line_at m text.now) listed.now) writer.new }
{
    for position in listed {
        let s = *position as usize;
        write_line(s, &text[s..s + m], writer);
    }
}

// Writes what stands before a page: nothing before the first.
fn write_break(page: usize, writer: &mut Writer<'_>)
    requires { RoomFor writer.old (break_before page) }
    ensures { Appended writer.old (break_before page) writer.new }
{
    if page != 0 {
        writer.put(PAGE_BREAK);
    }
}

// How many pages so many lines take.
fn page_count(lines: usize) -> usize
    requires { lines ≤ 65536 }
    ensures { result ≡ page_count lines }
{
    (lines + (LINES_A_PAGE - 1)) / LINES_A_PAGE
}

// How many bytes a sheet of so many lines has: 76 for each, and 1 between two pages.
pub fn sheet_length(lines: usize) -> usize
    requires { lines ≤ 65536 }
    ensures { result ≡ sheet_bytes lines }
{
    if lines == 0 {
        return 0;
    }
    LINE * lines + (page_count(lines) - 1)
}

// Writes the sheet of the listed positions at the buffer's start, for windows of m readings.
pub fn write_sheet(m: usize, text: &[u8], listed: &[u32], buffer: &mut [u8]) -> usize
    requires { SheetFits m text.now listed.now buffer.old }
    ensures { SheetWritten m text.now listed.now buffer.old buffer.new result }
{
    let pages = page_count(listed.len());
    let mut writer = Writer::new(buffer, 0);
    for page in 0..pages {
        let first = LINES_A_PAGE * page;
        let end = (first + LINES_A_PAGE).min(listed.len());
        write_break(page, &mut writer);
        write_page(m, text, &listed[first..end], &mut writer);
    }
    writer.at
}
