// The search loop of method 6 (document 02, T-04). What it has in common with those of 2, 3 and 4 is said in the crate loop_backward.

#![tactic(auto)]

ghost use Rattle.std.specs.Prelude.{◌≡◌};
ghost use Rattle.std.proofs.Common.{arith};
ghost use Rattle.jumbled.specs.Steps.{ebl_scan};
ghost use Rattle.jumbled.proofs.Ebl.{ebl-most};
ghost use Rattle.table_parikh.specs.Table.{allowances};
ghost use Rattle.table_parikh.specs.Letters.{Occurring};

use lent::Range;
use loop_backward::{Backward, Reached, position};

// Method 6, without counters: a pattern, how often it allows each byte, and which bytes it has.
#[derive(Clone, Copy)]
pub struct Ebl<'a> {
    pub pattern: &'a [u8],
    pub allowed: &'a [u8; 256],
    pub occurs: &'a [bool; 256],
    pub ghost allows: { allowed.now ≡ allowances pattern.now },
    pub ghost pattern_bytes: { Occurring pattern.now occurs.now },
}

impl<'a> Backward for Ebl<'a> {
    ghost pattern = { λ method. method.pattern.now };

    ghost scanned = { λ method. ebl_scan method.pattern.now };

    ghost few = { λ method W short within. Prim.omega (arith, ebl-most method.pattern.now W) };

    // A window is read leftwards up to a byte that the pattern lacks, at p. No window that holds that byte matches, so the search goes on at p + 1.
    // A window of the pattern's bytes alone, lost hours taken for some of them (document 02, T-07), may have one too often, so it is verified: its bytes
    // are taken once more, and counted.
    fn search(&self, text: &[u8], range: Range, list: &mut [u32]) -> Reached {
        let m = self.pattern.len();
        let allowed = self.allowed;
        let occurs = self.occurs;
        let end = range.end;
        let base = range.base;
        let mut s = range.first;
        let mut at = range.at;
        let mut inspections: usize = 0;
        'windows: while s < end && at < list.len() {
            for p in (s..s + m).rev() {
                inspections += 1;
                if !occurs[text[p] as usize] {
                    s = p + 1;
                    continue 'windows;
                }
            }
            inspections += m;
            if table_parikh::within(allowed, &text[s..s + m]) {
                list[at] = position(base, s);
                at += 1;
            }
            s += 1;
        }
        Reached {
            next: s,
            at,
            inspections,
        }
    }
}
