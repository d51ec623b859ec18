// What the backward methods have in common (document 01, "The five methods", 2 to 4; document 02, T-04, for 6): each goes through the window starts
// of one range of a text.

#![tactic(auto)]

ghost use Rattle.std.specs.Prelude.{◌≡◌, List, ℕ, ◌+◌, ◌^◌, ◌<◌, ◌≤◌, length};
ghost use Rattle.jumbled.specs.Scan.{Scanned};
ghost use Rattle.lent.specs.Loops.{Fitting};
ghost use Rattle.loop_backward.specs.Ranges.{RangeScanned};

use lent::Range;

// Where a loop stands: the next window start, the list's next place, and the inspections made.
#[derive(Clone, Copy, Debug, PartialEq, Eq)]
pub struct Reached {
    pub next: usize,
    pub at: usize,
    pub inspections: usize,
}

// The number that is listed for the window start s.
pub fn position(base: usize, s: usize) -> u32
    requires { base + s < 2 ^ 32 }
    ensures { result ≡ base + s }
{
    (base + s) as u32
}

// A backward method, with what it made of its pattern.
pub trait Backward {
    // The pattern,
    ghost pattern: { Self → List ℕ };

    // and the scan of a window of its length.
    ghost scanned: { Self → List ℕ → Scanned };

    // The scan of each window of the range, where the last one does not pass over it, until the list is full.
    fn search(&self, text: &[u8], range: Range, list: &mut [u32]) -> Reached
        requires { Fitting text.now (length (pattern self.now)) range }
        ensures { RangeScanned (scanned self.now) (length (pattern self.now)) text.now range list.old list.new result };

    // A scan takes each byte of its window twice at most.
    ghost few: { (method : Self) (W : List ℕ) → length (pattern method) ≤ 64 → length W ≤ length (pattern method) → (scanned method W).inspections ≤ 128 };
}
