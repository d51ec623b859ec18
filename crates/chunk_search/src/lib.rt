// A search of a tail followed by a chunk by any method, without joining them: first the windows that start in the tail, then those in the chunk.

#![tactic(auto)]

ghost use Rattle.std.specs.Prelude.{◌++◌};
ghost use Rattle.methods.specs.Numbers.{method_number};
ghost use Rattle.chunk_search.specs.Searchable.{Searchable, SplitSearchable, Stepped, SplitStepped};

use chunk_backward::{backward_chunk, ebl_chunk};
use chunk_forward::{count_chunk, hcam_chunk};
use chunk_seam::{Joined, seam_of, split_starts};
pub use lent::SearchCounts;
use methods::Method;

// The steps of any method over a tail followed by a chunk; counts says how often the pattern has each byte.
pub fn search_chunk(
    pattern: &[u8],
    counts: &[u8; 256],
    k: u8,
    method: Method,
    tail: &[u8],
    chunk: &[u8],
    base: usize,
    list: &mut [u32],
) -> SearchCounts
    requires { Searchable pattern.now counts.now k (method_number method) tail.now chunk.now base list.old }
    ensures { Stepped pattern.now k (method_number method) (tail.now ++ chunk.now) base list.old list.new result }
{
    let split = split_starts(pattern.len(), tail.len(), chunk.len(), base);
    // Without a window no tables are made.
    if split.over_tail.end + split.over_chunk.end == 0 {
        return SearchCounts {
            found: 0,
            inspections: 0,
        };
    }
    let seam = seam_of(tail, chunk, pattern.len());
    let joined = Joined {
        seam: seam.bytes(),
        chunk,
        split,
    };
    search_split(pattern, counts, k, method, joined, list)
}

// The steps of a method over the seam and then the chunk.
#[tactic(auto, using(chunk_backward::proofs::Scans::packable), unfolding(jumbled::specs::Steps::steps_into, jumbled::specs::Steps::way_of, chunk_backward::specs::Scans::scan_of))]
fn search_split(
    pattern: &[u8],
    counts: &[u8; 256],
    k: u8,
    method: Method,
    joined: Joined,
    list: &mut [u32],
) -> SearchCounts
    requires { SplitSearchable pattern.now counts.now k (method_number method) joined list.old }
    ensures { SplitStepped pattern.now k (method_number method) joined.entry list.old list.new result }
{
    match method {
        Method::Count => count_chunk(pattern, counts, k as usize, joined, list),
        Method::Bam | Method::Bam2 | Method::Abam => {
            backward_chunk(pattern, counts, k as usize, method, joined, list)
        }
        Method::Hcam => hcam_chunk(pattern, counts, joined, list),
        Method::Ebl => ebl_chunk(pattern, counts, joined, list),
    }
}
