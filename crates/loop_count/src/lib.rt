// Method 1 (document 01, "The five methods"): the bytes of a sliding window are counted. How the window slides is said in the crate loop_forward.

#![tactic(auto)]

ghost use Rattle.jumbled.specs.Steps.{count_judged};
ghost use Rattle.loop_count.specs.Counting.{CountTabled, Counting, none-verified};

use lent::Range;
use loop_forward::{Forward, Slid, Started};

// How often each byte occurs among some bytes, and their excess over the pattern.
#[derive(Clone, Copy, Debug, PartialEq, Eq)]
pub struct Sliding {
    pub counts: [u8; 256],
    pub excess: usize,
}

// A pattern and its allowances, for a search with up to k readings wrong.
#[derive(Drop)]
pub struct Count<'a> {
    pub pattern: &'a [u8],
    pub allowed: &'a [u8; 256],
    pub k: usize,
    pub ghost tabled: { CountTabled pattern.now allowed.now },
}

impl Forward for Count<'_> {
    type State = Sliding;

    ghost pattern = { λ method. method.pattern.now };

    ghost judged = { λ method. count_judged method.pattern.now method.k };

    ghost keeps = { λ method U state. Counting method.pattern.now U state.counts state.excess };

    ghost verifies = { λ method W. none-verified method.pattern.now method.k W };

    fn start(&self, text: &[u8]) -> Started<Sliding> {
        let allowed = self.allowed;
        let taken = &text[..self.pattern.len() - 1];
        let mut counts = [0u8; 256];
        let mut excess = 0;
        for byte in taken {
            let entering = *byte as usize;
            // What the pattern allows of this byte may be used up.
            excess += (counts[entering] >= allowed[entering]) as usize;
            counts[entering] += 1;
        }
        Started {
            state: Sliding { counts, excess },
            inspections: taken.len(),
        }
    }

    // A window is listed where its excess is at most k.
    fn slide(&self, text: &[u8], state: Sliding, range: Range, list: &mut [u32]) -> Slid<Sliding> {
        let m = self.pattern.len();
        let k = self.k;
        let allowed = self.allowed;
        let mut counts = state.counts;
        let mut excess = state.excess;
        let mut at = range.at;
        let mut inspections = 0;
        let mut next = range.end;
        // By number: the start itself is listed, and a range with no window may begin where the text has no part to be zipped.
        for s in range.first..range.end {
            if list.len() <= at {
                next = s; // no place is left
                break;
            }
            let entering = text[s + m - 1] as usize;
            inspections += 1; // the window's last byte
            excess += (counts[entering] >= allowed[entering]) as usize;
            counts[entering] += 1;
            if excess <= k {
                list[at] = (range.base + s) as u32; // the position in the whole text
                at += 1;
            }
            let leaving = text[s] as usize;
            counts[leaving] -= 1;
            excess -= (counts[leaving] >= allowed[leaving]) as usize;
        }
        Slid {
            state: Sliding { counts, excess }, // at the next window start
            next,
            at,
            inspections,
        }
    }
}
