// Methods 2, 3, 4 and 6 over a tail followed by a chunk: first the windows of the seam, then those of the chunk that the last scan did not pass over.

#![tactic(auto)]

ghost use Rattle.std.specs.Prelude.{◌≡◌, ◌≤◌, length};
ghost use Rattle.jumbled.specs.Steps.{ebl_scan};
ghost use Rattle.table_parikh.specs.Table.{parikh};
ghost use Rattle.methods.specs.Numbers.{method_number};
ghost use Rattle.table_packed.specs.Word.{Packable};
ghost use Rattle.chunk_seam.specs.Joined.{PreparedIn};
ghost use Rattle.chunk_backward.specs.Scans.{rest_of, FoundBy, FoundFor};

use chunk_seam::{Joined, Split};
use lent::{Range, SearchCounts};
use loop_abam::Abam;
use loop_backward::{Backward, Reached};
use loop_bam::Bam;
use loop_bam2::Bam2;
use loop_ebl::Ebl;
use methods::Method;
use table_widths::PatternFields;

// The window starts of the chunk that are left after those of the tail: the last scan in the tail may pass over some, all of them at most.
fn rest_of(split: Split, searched: Reached) -> Range
    requires { split.over_tail.end ≤ searched.next }
    ensures { result ≡ rest_of split searched }
{
    let mut rest = split.over_chunk;
    rest.first = rest.end.min(searched.next - split.over_tail.end);
    rest.at = searched.at;
    rest
}

// A backward method over the seam and then the chunk. Each method has a function of its own when it runs too: where the loops were put into the caller of
// all, method 3 took a quarter more time.
#[inline(never)]
fn both<M: Backward>(method: &M, joined: Joined, list: &mut [u32]) -> SearchCounts
    requires { PreparedIn (length (M.pattern method.now)) joined list.old }
    ensures { FoundBy (M.scanned method.now) (length (M.pattern method.now)) joined.entry
        list.old list.new result }
{
    let first = method.search(joined.seam, joined.split.over_tail, list);
    let second = method.search(joined.chunk, rest_of(joined.split, first), list);
    SearchCounts {
        found: second.at,
        inspections: first.inspections + second.inspections,
    }
}

// Methods 2, 3 and 4 over the seam and then the chunk, by the counts of the pattern.
#[tactic(auto, unfolding(jumbled::specs::Fields::layout_of, crate::specs::Scans::scan_of))]
pub fn backward_chunk(
    pattern: &[u8],
    counts: &[u8; 256],
    k: usize,
    method: Method,
    joined: Joined,
    list: &mut [u32],
) -> SearchCounts
    requires prepared { (PreparedIn (length pattern.now) joined list.old) × (Packable pattern.now k (method_number method)) }
    requires counted { counts.now ≡ parikh pattern.now }
    ensures { FoundFor pattern.now k (method_number method) joined.entry list.old list.new result }
{
    let fields = PatternFields::of(pattern, counts, k, method);
    let shared = table_packed::shared_field(&fields);
    let mut units = [shared.unit; 256];
    let word = table_packed::place_units(&fields, shared, &mut units);
    let units = &units;
    match method {
        Method::Bam => {
            let bam = Bam {
                pattern,
                word,
                units,
            };
            both(&bam, joined, list)
        }
        Method::Bam2 => {
            let bam2 = Bam2 {
                pattern,
                word,
                units,
            };
            both(&bam2, joined, list)
        }
        Method::Abam => {
            let mut tops = [shared.top; 256];
            table_packed::place_own_tops(&fields, &mut tops);
            let own_tops = &tops;
            let abam = Abam {
                pattern,
                k,
                word,
                units,
                own_tops,
            };
            both(&abam, joined, list)
        }
        // No fields.
        Method::Count | Method::Hcam | Method::Ebl => unreachable!(),
    }
}

// Method 6 over the seam and then the chunk, by the counts of the pattern.
pub fn ebl_chunk(
    pattern: &[u8],
    counts: &[u8; 256],
    joined: Joined,
    list: &mut [u32],
) -> SearchCounts
    requires prepared { PreparedIn (length pattern.now) joined list.old }
    requires counted { counts.now ≡ parikh pattern.now }
    ensures { FoundBy (ebl_scan pattern.now) (length pattern.now) joined.entry
        list.old list.new result }
{
    let allowed = table_parikh::allowances(counts);
    let occurs = table_parikh::occurring(pattern);
    let ebl = Ebl {
        pattern,
        allowed: &allowed,
        occurs: &occurs,
    };
    both(&ebl, joined, list)
}
