// The search loop of method 2. What it has in common with those of 3, 4 and 6 is said in the crate loop_backward.

#![tactic(auto)]

ghost use Rattle.std.proofs.Common.{arith};
ghost use Rattle.jumbled.specs.Fields.{bam_layout};
ghost use Rattle.jumbled.specs.Steps.{bam_scan};
ghost use Rattle.jumbled.proofs.Methods.{bam-most};
ghost use Rattle.loop_backward.specs.Ranges.{Scannable};

use lent::Range;
use loop_backward::{Backward, Reached, position};
use table_packed::Word;

// Method 2, packed backward: a pattern, with its packed word and what a byte adds to it.
#[derive(Clone, Copy)]
pub struct Bam<'a> {
    pub pattern: &'a [u8],
    pub word: Word,
    pub units: &'a [u64; 256],
    pub ghost of_the_pattern: { Scannable pattern.now bam_layout word units.now },
}

impl<'a> Backward for Bam<'a> {
    ghost pattern = { λ method. method.pattern.now };

    ghost scanned = { λ method. bam_scan method.pattern.now };

    ghost few = { λ method W short within. Prim.omega (arith, bam-most method.pattern.now W) };

    // Document 01, "The five methods". A window is read leftwards, one byte a step, and each byte adds 1 to its field of one word. A top bit that is set
    // at p tells that the bytes from p on hold one too many. Every window that starts after s and up to p holds these bytes too, so the search goes on
    // at p + 1.
    fn search(&self, text: &[u8], range: Range, list: &mut [u32]) -> Reached {
        let m = self.pattern.len();
        let units = self.units;
        let start = self.word.start;
        let tops = self.word.tops;
        let end = range.end;
        let base = range.base;
        let mut s = range.first;
        let mut at = range.at;
        let mut inspections: usize = 0;
        'windows: while s < end && at < list.len() {
            let mut packed = start;
            for p in (s..s + m).rev() {
                packed += units[text[p] as usize];
                inspections += 1;
                if packed & tops != 0 {
                    s = p + 1;
                    continue 'windows;
                }
            }
            list[at] = position(base, s);
            at += 1;
            s += 1;
        }
        Reached {
            next: s,
            at,
            inspections,
        }
    }
}
