// How many positions a search lists, known before any list is written: a sheet that would not fit its buffer is refused with nothing written
// (document 02, T-02).

#![tactic(auto)]

ghost use Rattle.std.specs.Prelude.{◌≡◌, length};
ghost use Rattle.jumbled.specs.Match.{positions};
ghost use Rattle.sheet_count.specs.Counting.{Countable};

use lent::Range;
use loop_count::Count;
use loop_forward::Forward;

// Method 1 goes through the text once and lists into places of this function's own, piece by piece: it ends where they are full, and goes on
// from there with the state that it handed back. A piece's positions overwrite those before them, since only their number is asked for.
pub fn count_matches(pattern: &[u8], counts: &[u8; 256], k: usize, text: &[u8]) -> usize
    requires { Countable pattern.now counts.now text.now }
    ensures { result ≡ length (positions pattern.now k text.now) }
{
    if text.len() < pattern.len() {
        return 0;
    }
    let allowed = table_parikh::allowances(counts);
    let method = Count {
        pattern,
        allowed: &allowed,
        k,
    };
    let end = text.len() - pattern.len() + 1;
    let mut places = [0u32; 64];
    let mut state = method.start(text).state;
    let mut first = 0;
    let mut found = 0;
    // A piece goes on by as many windows as it took to fill the places.
    while first < end {
        let range = Range {
            first,
            end,
            base: 0,
            at: 0, // from the first place again
        };
        let slid = method.slide(text, state, range, &mut places);
        state = slid.state;
        first = slid.next;
        found += slid.at;
    }
    found
}
