// The call that each stored case asks for, and what it came to (tools/vectors_stream.py). specs/ says which call that is.

#![tactic(auto)]

ghost use Rattle.std.specs.Prelude.{◌≡◌, ◌++◌, length, replicate};
ghost use Rattle.search.specs.Calls.{Feeds, Saves};
ghost use Rattle.search_whole.specs.Whole.{Whole};
ghost use Rattle.several.specs.Whole.{WholeSeveral};
ghost use Rattle.sheet.specs.Whole.{WholeSheet};
ghost use Rattle.tests_outcomes.specs.Digests.{digest, list_bytes};
ghost use Rattle.tests_calls.specs.Calls.{Came, called_with, number_outcome, answer_outcome, admission_called, feed_called, save_called, SaveMade, known_buffer};
ghost use Rattle.tests_calls.specs.Calls.{SeveralMade, sheet_outcome, MarkedMade, FirstMade, ResentMade, report_outcome};
ghost use Rattle.tests_calls.specs.Calls.{width_number, exact_number, CallMade};

mod from_answers;
mod searches;

use from_answers::{admitted, answered, first_answered, marked, saved};
use program_report::OUTPUT_ROOM;
use search::{FeedResult, SaveResult, Search, SearchResult};
use searches::{digest_search, search_of};
use tests_outcomes::Outcome;
use tests_outcomes::digest::Digest;
use tests_stream::cases::{Case, Kind, read_fields};
use tests_stream::patterns::{
    MOST_LENGTHS, lent_places, marked_pattern, pattern_after_start, pattern_bytes, read_lengths,
    start_position,
};
use tests_stream::{byte_room, fill_buffer, fill_list, list_room};

// The longest buffer of a save.
const LONGEST_IMAGE: usize = 512;

// What a call came to, and the search that it left.
#[derive(Drop)]
pub struct Called {
    pub search: Search,
    pub got: Outcome,
}

// A call that leaves the search as it was.
fn beside(search: Search, got: Outcome) -> Called
    ensures { result ≡ called_with search got }
{
    Called { search, got }
}

// What open, set method and load gave.
fn admission_called(given: SearchResult) -> Called
    ensures { result ≡ admission_called given }
{
    let admission = given.admission;
    let search = given.search;
    Called {
        search,
        got: admitted(admission, digest_search(Digest::new(), search)),
    }
}

fn call_feed(before: Search, chunk: &[u8], list: &mut [u32]) -> Called
    ensures { Came (Feeds before chunk.now list.old list.new) (feed_called (list_bytes list.new)) result }
{
    let fed = before.feed(chunk, list);
    let answer = fed.answer;
    let search = fed.search;
    Called {
        search,
        got: answered(answer, digest_search(Digest::new().list(list), search)),
    }
}

// Saves into a buffer of so many bytes. No case asks for more than the longest image: `shape_of` says so.
fn call_save(before: Search, places: usize) -> Called
    ensures { SaveMade before (known_buffer places) result }
{
    let mut bytes = [0u8; LONGEST_IMAGE];
    let room = places.min(LONGEST_IMAGE);
    fill_buffer(&mut bytes, room);
    save_into(before, &mut bytes[..room])
}

fn save_into(before: Search, buffer: &mut [u8]) -> Called
    ensures { Came (Saves before buffer.old buffer.new) (save_called buffer.new) result }
{
    let given = before.save(buffer);
    let saving = given.saving;
    let search = given.search;
    Called {
        search,
        got: saved(saving, digest_search(Digest::new().bytes(buffer), search)),
    }
}

fn call_whole(pattern: &[u8], k: u8, method: u8, text: &[u8], list: &mut [u32]) -> Outcome
    ensures { Came (Whole pattern.now k method text.now list.old list.new)
        (answer_outcome (digest 0 (list_bytes list.new))) result }
{
    let answer = search::whole(pattern, k, method, text, list);
    answered(answer, Digest::new().list(list))
}

// Searches for several patterns. The list of positions is filled already, and that of the numbers, which no other call has, is made here.
fn call_several(handed: &[u8], k: u8, text: &[u8], positions: &mut [u32]) -> Outcome
    ensures { SeveralMade handed.now k text.now positions.old positions.new result }
{
    let mut lengths = [0usize; MOST_LENGTHS];
    let count = read_lengths(handed, &mut lengths);
    let mut numbers = list_room();
    let places = lent_places(handed);
    fill_list(&mut numbers, places);
    several_into(
        pattern_bytes(handed),
        &lengths[..count],
        k,
        text,
        positions,
        &mut numbers[..places],
    )
}

fn several_into(
    patterns: &[u8],
    lengths: &[usize],
    k: u8,
    text: &[u8],
    positions: &mut [u32],
    numbers: &mut [u32],
) -> Outcome
    ensures { Came (WholeSeveral patterns.now lengths.now k text.now positions.old
        positions.new numbers.old numbers.new)
        (answer_outcome (digest 0 (list_bytes positions.new ++ list_bytes numbers.new))) result }
{
    let answer = several::whole(patterns, lengths, k, text, positions, numbers);
    answered(answer, Digest::new().list(positions).list(numbers))
}

// Searches and writes the marked sheet. The list is filled already, and the sheet's buffer is made here.
fn call_marked(handed: &[u8], k: u8, method: u8, text: &[u8], list: &mut [u32]) -> Outcome
    ensures { MarkedMade handed.now k method text.now list.old list.new result }
{
    let mut bytes = byte_room();
    let room = lent_places(handed);
    fill_buffer(&mut bytes, room);
    marked_into(
        marked_pattern(handed),
        k,
        method,
        text,
        list,
        &mut bytes[..room],
    )
}

fn marked_into(
    pattern: &[u8],
    k: u8,
    method: u8,
    text: &[u8],
    list: &mut [u32],
    buffer: &mut [u8],
) -> Outcome
    ensures { Came (WholeSheet pattern.now k method text.now list.old list.new
        buffer.old buffer.new) (sheet_outcome (list_bytes list.new ++ buffer.new)) result }
{
    let answer = sheet::whole(pattern, k, method, text, list, buffer);
    marked(answer, Digest::new().list(list).bytes(buffer))
}

// Searches for the first match from a position on. No list is lent.
fn call_first(handed: &[u8], k: u8, method: u8, text: &[u8]) -> Outcome
    ensures { FirstMade handed.now k method text.now result }
{
    let from = start_position(handed);
    let answer = first::at_or_after(pattern_after_start(handed), k, method, text, from);
    first_answered(answer)
}

// Makes the text of nine days of readings that were sent again.
fn call_resent(entries: &[u8]) -> Outcome
    ensures { ResentMade entries.now result }
{
    let assembled = resent::assemble(entries);
    let admission = assembled.admission;
    let text = assembled.text;
    admitted(admission, Digest::new().bytes(&text))
}

// A buffer for every output of mixlist's function.
fn report_room() -> [u8; OUTPUT_ROOM]
    ensures { (result ≡ replicate 98560 0) × (98560 ≡ length result) }
{
    lent::room(0)
}

// The length of the output, and the digest of that.
fn call_report(input: &[u8]) -> Outcome
    ensures { result ≡ report_outcome input.now }
{
    let mut output = report_room();
    let written = program_report::report(input, &mut output);
    Outcome {
        number: 0,
        a: written as u64,
        b: 0,
        digest: Digest::new().bytes(&output[..written]).value,
    }
}

// A number that a call without refusals gives.
fn number_outcome(a: usize) -> Outcome
    ensures { result ≡ number_outcome a }
{
    Outcome {
        number: 0,
        a: a as u64,
        b: 0,
        digest: 0,
    }
}

// How many bits the fields of methods 2, 3 and 4 need. No longer pattern and no larger k gets so far.
fn width_of(pattern: &[u8], k: u8, method: u8) -> usize
    ensures { result ≡ width_number pattern.now k method }
{
    if 64 < pattern.len() {
        return 0;
    }
    if 64 < k {
        return 0;
    }
    let counts = table_parikh::counts(pattern);
    table_widths::field_bits(pattern, &counts, k as usize, method)
}

// Whether method 5 takes a candidate for a match without verifying it. No longer pattern gets so far.
fn exact(pattern: &[u8]) -> usize
    ensures { result ≡ exact_number pattern.now }
{
    if 64 < pattern.len() {
        return 0;
    }
    let counts = table_parikh::counts(pattern);
    let mut values = [0u64; 256];
    let target = table_heap::fill_values(pattern, &counts, &mut values);
    if target.exact { 1 } else { 0 }
}

// Makes the call of a case. The list is filled already.
pub fn make_call(
    case: Case,
    search: Search,
    pattern: &[u8],
    text: &[u8],
    list: &mut [u32],
) -> Called
    ensures { CallMade case search pattern.now text.now list.old list.new result }
{
    let k = case.k;
    let method = case.method;
    match case.kind {
        Kind::Whole => beside(search, call_whole(pattern, k, method, text, list)),
        Kind::Open => admission_called(Search::open(pattern, k, method)),
        Kind::Feed => call_feed(search, text, list),
        Kind::SetMethod => admission_called(search.set_method(method)),
        Kind::Save => call_save(search, case.places),
        Kind::Load => admission_called(Search::load(text)),
        Kind::Hand => beside(search_of(read_fields(text)), number_outcome(0)),
        Kind::Report => beside(search, call_report(text)),
        Kind::FieldBits => beside(search, number_outcome(width_of(pattern, k, method))),
        Kind::Exact => beside(search, number_outcome(exact(pattern))),
        Kind::Several => beside(search, call_several(pattern, k, text, list)),
        Kind::Marked => beside(search, call_marked(pattern, k, method, text, list)),
        Kind::First => beside(search, call_first(pattern, k, method, text)),
        Kind::Resent => beside(search, call_resent(text)),
        // as `Exact`, so that there is an answer for every number
        Kind::Unknown => beside(search, number_outcome(exact(pattern))),
    }
}
