// What a search keeps between its calls, and the tests of it: document 01, "A search and its calls" and "When a call says no".

#![tactic(auto)]

ghost use Rattle.std.specs.Prelude.{◌≡◌, ◌++◌, ◌+◌, ◌≤◌, length};
ghost use Rattle.jumbled.specs.Refusals.{given, tail_length, search_tests};
ghost use Rattle.admit_pattern.specs.Admits.{Admits};
ghost use Rattle.search_state.specs.Stored.{padded, last_of};

use admit_pattern::Admitted;
use answers::Refusal;

// Source in the first places of an array, the others 0: a pattern in 64, a tail in 63.
pub fn stored<const N: usize>(source: &[u8]) -> [u8; N]
    requires { length source.now ≤ N }
    ensures { result ≡ padded N source.now }
{
    let mut bytes = [0u8; N];
    lent::copy_in(source, &mut bytes, 0);
    bytes
}

// The last keep bytes of the tail followed by the chunk, the other places 0.
pub fn next_tail(tail: &[u8], chunk: &[u8], keep: usize) -> [u8; 63]
    requires { (keep ≤ 63) × (keep ≤ length tail.now + length chunk.now) }
    ensures { result ≡ padded 63 (last_of keep (tail.now ++ chunk.now)) }
{
    if keep <= chunk.len() {
        let from = chunk.len() - keep;
        return stored(&chunk[from..]);
    }
    let mut bytes = [0u8; 63];
    let from = tail.len() + chunk.len() - keep;
    let at = lent::copy_in(&tail[from..], &mut bytes, 0);
    lent::copy_in(chunk, &mut bytes, at);
    bytes
}

// The length of the tail after total bytes, for a pattern of m: what a window that ends in the next chunk can reach.
pub fn tail_length(m: usize, total: usize) -> usize
    requires { 1 ≤ m }
    ensures { result ≡ tail_length m total }
{
    total.min(m - 1)
}

// The tests of a search's parts, with a tail of so many bytes: those of open, then 9.
pub fn admit_parts(
    pattern: &[u8],
    k: u8,
    method: u8,
    total: u32,
    tail: usize,
) -> Result<Admitted, Refusal>
    ensures { Admits pattern.now method (given (search_tests pattern.now k method total tail)) result }
{
    let admitted = admit_pattern::admit(pattern, k, method)?;
    if tail != tail_length(pattern.len(), total as usize) {
        return Err(Refusal::Malformed);
    }
    Ok(admitted)
}
