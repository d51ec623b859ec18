// The search loop of method 4. What it has in common with those of 2, 3 and 6 is said in the crate loop_backward.

#![tactic(auto)]

ghost use Rattle.std.proofs.Common.{arith};
ghost use Rattle.jumbled.specs.Fields.{abam_layout};
ghost use Rattle.jumbled.specs.Steps.{abam_scan};
ghost use Rattle.jumbled.proofs.Methods.{abam-most};
ghost use Rattle.table_packed.specs.Word.{OwnTops};
ghost use Rattle.loop_backward.specs.Ranges.{Scannable};

use lent::Range;
use loop_backward::{Backward, Reached, position};
use table_packed::Word;

// Method 4, approximate backward: a pattern, the errors that are tolerated, the packed word, what a byte adds to it, and the top bit of a byte's own field.
#[derive(Clone, Copy)]
pub struct Abam<'a> {
    pub pattern: &'a [u8],
    pub k: usize,
    pub word: Word,
    pub units: &'a [u64; 256],
    pub own_tops: &'a [u64; 256],
    pub ghost of_the_pattern: { Scannable pattern.now (abam_layout k) word units.now },
    pub ghost tested: { OwnTops pattern.now (abam_layout k) own_tops.now },
}

impl<'a> Backward for Abam<'a> {
    ghost pattern = { λ method. method.pattern.now };

    ghost scanned = { λ method. abam_scan method.pattern.now method.k };

    ghost few = { λ method W short within. Prim.omega (arith, abam-most method.pattern.now method.k W) };

    // Document 01, "The five methods". As method 2, but a byte whose own top bit is set after it is an error, and the scan stops where the errors pass k.
    fn search(&self, text: &[u8], range: Range, list: &mut [u32]) -> Reached {
        let m = self.pattern.len();
        let k = self.k;
        let units = self.units;
        let own_tops = self.own_tops;
        let start = self.word.start;
        let end = range.end;
        let base = range.base;
        let mut s = range.first;
        let mut at = range.at;
        let mut inspections: usize = 0;
        'windows: while s < end && at < list.len() {
            let mut packed = start;
            let mut errors: usize = 0;
            for p in (s..s + m).rev() {
                let byte = text[p] as usize;
                packed += units[byte];
                inspections += 1;
                if packed & own_tops[byte] != 0 {
                    errors += 1;
                }
                // Asked of every byte, since a branch on each error could not be predicted.
                if errors > k {
                    s = p + 1;
                    continue 'windows;
                }
            }
            list[at] = position(base, s);
            at += 1;
            s += 1;
        }
        Reached {
            next: s,
            at,
            inspections,
        }
    }
}
