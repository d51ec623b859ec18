// Method 5 (document 01, "The five methods"): the heap values of a sliding window's bytes are summed. How the window slides is said in the crate
// loop_forward.

#![tactic(auto)]

ghost use Rattle.std.specs.Prelude.{◌≡◌, ◌≤◌, ◌||◌, length, nat_lt};
ghost use Rattle.jumbled.specs.Steps.{hcam_judged};
ghost use Rattle.loop_hcam.specs.Hashing.{HcamTabled, Summing, Finds, verification-small};

use lent::Range;
use loop_forward::{Forward, Slid, Started};
use table_heap::Target;
use table_parikh::LOST_HOUR;

// The sum of some bytes' heap values, and how many of them are lost hours (document 02, T-07).
#[derive(Clone, Copy, Debug, PartialEq, Eq)]
pub struct Summed {
    pub sum: u64,
    pub lost: usize,
}

// Whether there is anything to find of a window: most windows have another sum than the pattern and no lost hour.
fn may_match(lost: usize, candidate: bool) -> bool
    ensures { result ≡ (nat_lt 0 lost || candidate) }
{
    0 < lost || candidate
}

// What is found of a window: whether it is listed, and the inspections that its verification adds.
#[derive(Clone, Copy, Debug, PartialEq, Eq)]
pub struct Finding {
    pub listed: bool,
    pub verification: usize,
}

// Of a window that may match: where the values are exact and it holds no lost hour it does. Otherwise its sum is not enough (document 02, T-07, for
// lost hours), and it is verified, its bytes being taken once more.
fn judge(allowed: &[u8; 256], lost: usize, exact: bool, window: &[u8]) -> Finding
    requires { length window.now ≤ 64 }
    ensures { Finds allowed.now lost exact window.now result }
{
    if exact && lost == 0 {
        return Finding {
            listed: true,
            verification: 0,
        };
    }
    Finding {
        listed: table_parikh::within(allowed, window),
        verification: window.len(),
    }
}

// A pattern with its allowances, its heap values and what a candidate's sum is.
#[derive(Drop)]
pub struct Hcam<'a> {
    pub pattern: &'a [u8],
    pub allowed: &'a [u8; 256],
    pub values: &'a [u64; 256],
    pub target: Target,
    pub ghost tabled: { HcamTabled pattern.now allowed.now values.now target },
}

impl Forward for Hcam<'_> {
    type State = Summed;

    ghost pattern = { λ method. method.pattern.now };

    ghost judged = { λ method. hcam_judged method.pattern.now };

    ghost keeps = { λ method. Summing method.pattern.now };

    ghost verifies = { λ method. verification-small method.pattern.now method.tabled.short };

    fn start(&self, text: &[u8]) -> Started<Summed> {
        let taken = &text[..self.pattern.len() - 1];
        let summed = Summed {
            sum: table_heap::sum_of(self.values, taken),
            lost: table_parikh::lost_hours(taken),
        };
        Started {
            state: summed,
            inspections: taken.len(),
        }
    }

    // A window is a candidate where its sum is the target's. Whether the list is full is asked only where a position was listed. The loop goes by
    // number: the start itself is listed, and a range with no window may begin where the text has no part to be zipped.
    fn slide(&self, text: &[u8], state: Summed, range: Range, list: &mut [u32]) -> Slid<Summed> {
        let m = self.pattern.len();
        let values = self.values;
        let target = self.target;
        let mut sum = state.sum;
        let mut lost = state.lost;
        let mut at = range.at;
        let mut inspections = 0;
        let first = range.first;
        let mut next = if at < list.len() { range.end } else { first };
        for s in first..next {
            let entering = text[s + m - 1];
            inspections += 1;
            sum = sum.wrapping_add(values[entering as usize]);
            lost += (entering == LOST_HOUR) as usize;
            if may_match(lost, sum == target.sum) {
                let finding = judge(self.allowed, lost, target.exact, &text[s..s + m]);
                inspections += finding.verification;
                if finding.listed {
                    list[at] = (range.base + s) as u32;
                    at += 1;
                    if at == list.len() {
                        next = s + 1; // the last place is taken
                        sum = sum.wrapping_sub(values[text[s] as usize]);
                        lost -= (text[s] == LOST_HOUR) as usize;
                        break;
                    }
                }
            }
            let leaving = text[s];
            sum = sum.wrapping_sub(values[leaving as usize]);
            lost -= (leaving == LOST_HOUR) as usize;
        }
        Slid {
            state: Summed { sum, lost }, // at the next window start
            next,
            at,
            inspections,
        }
    }
}
