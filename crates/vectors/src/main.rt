// The program vectors: stored cases on standard input, each run and compared with its stored outcome. tools/vectors_stream.py says how the
// stream is laid out, and tools/make_vectors.py makes it.

#![tactic(auto)]

ghost use Rattle.std.specs.Prelude.{◌≡◌, not, ◌+◌, ◌^◌, ◌≤◌, ◌<◌, length, replicate};
ghost use Rattle.tests_stream.specs.Kinds.{is_hand};
ghost use Rattle.vectors.specs.Runs.{CaseStep, tallied, TallyOf};

use search::Search;
use tests_calls::make_call;
use tests_outcomes::{Outcome, print_difference, print_malformed, print_tally, read_outcome};
use tests_stream::cases::{Kind, read_case};
use tests_stream::{byte_room, fill_list, list_room};

// The longest stream; what follows isn't read.
const LONGEST_STREAM: usize = 1048576;

// A case that was run: what its call came to, what is stored, the search that it left, and the place after it.
#[derive(Drop)]
struct Step {
    kind: Kind,
    got: Outcome,
    expected: Outcome,
    search: Search,
    next: usize,
}

// How many cases were compared, and how many of them came to something else than is stored.
#[derive(Drop)]
struct Tally {
    cases: usize,
    differ: usize,
}

// Runs the case at a place; none where no kind's number stands there. One that can't be read is run with what could be read of it, and leads to a
// place past the stream's end.
fn run_case(stream: &[u8], at: usize, search: Search) -> Option<Step>
    ensures { CaseStep stream.now at search result }
{
    let mut pattern = [0u8; 1024];
    let mut text = byte_room();
    let mut list = list_room();
    let case = read_case(stream, at, &mut pattern, &mut text);
    match case.kind {
        Kind::Unknown => return None,
        _ => {}
    }
    let stored = read_outcome(stream, case.next, has_outcome(case.kind));
    let m = case.pattern;
    let n = case.text;
    let places = case.places;
    fill_list(&mut list, places);
    let called = make_call(case, search, &pattern[..m], &text[..n], &mut list[..places]);
    let got = called.got;
    let expected = stored.outcome;
    let left = called.search;
    Some(Step {
        kind: case.kind,
        got,
        expected,
        search: left,
        next: stored.next,
    })
}

// A search that is filled in by hand is no case.
fn has_outcome(kind: Kind) -> bool
    ensures { result ≡ not (is_hand kind) }
{
    match kind {
        Kind::Hand => false,
        _ => true,
    }
}

// Compares a case's outcome with the one stored.
fn compare<R: Print>(rt: &R, tally: Tally, kind: Kind, got: Outcome, expected: Outcome) -> Tally
    requires { (tally.differ ≤ tally.cases) × (tally.cases < 2 ^ 63) }
    ensures differ_le_cases { (result.differ ≤ result.cases) × (result.cases ≤ tally.cases + 1) }
    ensures value { result ≡ tallied tally kind got expected }
{
    if !has_outcome(kind) {
        return tally;
    }
    let cases = tally.cases + 1;
    if got == expected {
        return Tally {
            cases,
            differ: tally.differ,
        };
    }
    print_difference(rt, cases, kind as u8, got, expected);
    Tally {
        cases,
        differ: tally.differ + 1,
    }
}

// Runs the cases one after the other. Each takes a byte at least, so there are no more cases than bytes.
fn run<R: Print>(rt: &R, stream: &[u8]) -> Tally
    ensures differ_le_cases { result.differ ≤ result.cases }
    ensures tally_of { TallyOf stream.now result }
{
    let mut tally = Tally {
        cases: 0,
        differ: 0,
    };
    let mut search = Search::BLANK;
    let mut at: usize = 0;
    for turn in 0..stream.len() {
        if stream.len() <= at {
            break;
        }
        let step = match run_case(stream, at, search) {
            Some(step) => step,
            None => {
                print_malformed(rt, at);
                break;
            }
        };
        if stream.len() < step.next {
            print_malformed(rt, at);
            break;
        }
        let got = step.got;
        let expected = step.expected;
        let left = step.search;
        tally = compare(rt, tally, step.kind, got, expected);
        search = left;
        at = step.next;
    }
    tally
}

// Room for the longest stream.
fn stream_room() -> [u8; LONGEST_STREAM]
    ensures { (result ≡ replicate 1048576 0) × (1048576 ≡ length result) }
{
    lent::room(0)
}

fn main(rt: HostRuntime) {
    let mut stream = stream_room();
    let read = lent::read_full(&mut rt.stdin(), &mut stream);
    let tally = run(&rt, &stream[..read]);
    print_tally(&rt, tally.cases, tally.differ);
}
