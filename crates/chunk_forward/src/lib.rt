// The forward methods, 1 and 5, over a tail followed by a chunk: first the windows of the seam, then those of the chunk with the state that the seam left.

#![tactic(auto)]

ghost use Rattle.std.specs.Prelude.{length};
ghost use Rattle.jumbled.specs.Scan.{judges, driven_into};
ghost use Rattle.lent.specs.Found.{Found};
ghost use Rattle.chunk_seam.specs.Joined.{PreparedIn, text_of};
ghost use Rattle.chunk_forward.specs.Starting.{ForwardReady, Startable, SeamSlid};
ghost use Rattle.chunk_forward.specs.Counting.{CountFound};
ghost use Rattle.chunk_forward.specs.Hashing.{HcamFound};

use chunk_seam::Joined;
use lent::{Range, SearchCounts};
use loop_count::Count;
use loop_forward::{Forward, Slid};
use loop_hcam::Hcam;

// A forward method over the windows of the seam, from its first one on.
fn forward_seam<F: Forward>(
    method: &F,
    seam: &[u8],
    range: Range,
    list: &mut [u32],
) -> Slid<F::State>
    requires { Startable (length (F.pattern method.now)) seam.now range list.old }
    ensures { SeamSlid (F.keeps method.now) (F.judged method.now) (length (F.pattern method.now)) seam.now range list.old list.new result }
{
    let start = method.start(seam);
    let mut slid = method.slide(seam, start.state, range, list);
    slid.inspections += start.inspections;
    slid
}

// A forward method over the seam and then the chunk.
fn forward_chunk<F: Forward>(method: &F, joined: Joined, list: &mut [u32]) -> SearchCounts
    requires { PreparedIn (length (F.pattern method.now)) joined list.old }
    ensures { Found (driven_into (length list.old) (judges (F.judged method.now)) (length (F.pattern method.now)) (text_of joined.entry)) joined.entry.split.over_tail.base list.old list.new result }
{
    let split = joined.split;
    let first = forward_seam(method, joined.seam, split.over_tail, list);
    if split.over_chunk.end == 0 {
        return SearchCounts {
            found: first.at,
            inspections: first.inspections,
        };
    }
    let over_chunk = Range {
        at: first.at,
        ..split.over_chunk
    };
    let second = method.slide(joined.chunk, first.state, over_chunk, list);
    let inspections = first.inspections + second.inspections; // a byte of both is taken once
    SearchCounts {
        found: second.at, // the seam's positions are in the places before
        inspections,
    }
}

// Method 1 over the seam and then the chunk.
pub fn count_chunk(
    pattern: &[u8],
    counts: &[u8; 256],
    k: usize,
    joined: Joined,
    list: &mut [u32],
) -> SearchCounts
    requires { ForwardReady pattern.now counts.now joined list.old }
    ensures { CountFound pattern.now k joined.entry list.old list.new result }
{
    let allowed = table_parikh::allowances(counts);
    let method = Count {
        pattern,
        allowed: &allowed,
        k,
    };
    forward_chunk(&method, joined, list)
}

// Method 5 over the seam and then the chunk.
pub fn hcam_chunk(
    pattern: &[u8],
    counts: &[u8; 256],
    joined: Joined,
    list: &mut [u32],
) -> SearchCounts
    requires { ForwardReady pattern.now counts.now joined list.old }
    ensures { HcamFound pattern.now joined.entry list.old list.new result }
{
    let mut values = [0u64; 256];
    let target = table_heap::fill_values(pattern, counts, &mut values);
    let allowed = table_parikh::allowances(counts);
    let method = Hcam {
        pattern,
        allowed: &allowed,
        values: &values,
        target,
    };
    forward_chunk(&method, joined, list)
}
