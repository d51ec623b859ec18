// The search loop of method 3. What it has in common with those of 2, 4 and 6 is said in the crate loop_backward.

#![tactic(auto)]

ghost use Rattle.std.proofs.Common.{arith};
ghost use Rattle.jumbled.specs.Fields.{bam2_layout};
ghost use Rattle.jumbled.specs.Steps.{bam2_scan};
ghost use Rattle.jumbled.proofs.Methods.{bam2-most};
ghost use Rattle.loop_backward.specs.Ranges.{Scannable};

use lent::Range;
use loop_backward::{Backward, Reached, position};
use table_packed::Word;

// Method 3, pairs backward: a pattern, with its packed word and what a byte adds to it.
#[derive(Clone, Copy)]
pub struct Bam2<'a> {
    pub pattern: &'a [u8],
    pub word: Word,
    pub units: &'a [u64; 256],
    pub ghost of_the_pattern: { Scannable pattern.now bam2_layout word units.now },
}

impl<'a> Backward for Bam2<'a> {
    ghost pattern = { λ method. method.pattern.now };

    ghost scanned = { λ method. bam2_scan method.pattern.now };

    ghost few = { λ method W short within. Prim.omega (arith, bam2-most method.pattern.now W) };

    // Document 01, "The five methods". As method 2, but two bytes a step, the leftmost alone where one is left, and a test after each step. Which of a
    // pair's two bytes is too many is not asked, so after a stop whose left byte is at p the window at p + 1 is still to be searched.
    fn search(&self, text: &[u8], range: Range, list: &mut [u32]) -> Reached {
        let m = self.pattern.len();
        let units = self.units;
        let start = self.word.start;
        let tops = self.word.tops;
        let end = range.end;
        let base = range.base;
        let mut s = range.first;
        let mut at = range.at;
        let mut inspections: usize = 0;
        'windows: while s < end && at < list.len() {
            let mut packed = start;
            let mut p = s + m;
            // Not one by one: two bytes a step, and a rest of one.
            while s + 1 < p {
                p -= 2;
                let right = text[p + 1] as usize;
                let left = text[p] as usize;
                packed += units[right];
                packed += units[left];
                inspections += 2;
                if packed & tops != 0 {
                    s = p + 1;
                    continue 'windows;
                }
            }
            if s < p {
                packed += units[text[s] as usize];
                inspections += 1;
                if packed & tops != 0 {
                    s += 1;
                    continue 'windows;
                }
            }
            list[at] = position(base, s);
            at += 1;
            s += 1;
        }
        Reached {
            next: s,
            at,
            inspections,
        }
    }
}
