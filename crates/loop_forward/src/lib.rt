// What the forward methods, 1 and 5, have in common (document 01, "The five methods"): a window slides over one lent slice. Before the window at s
// a loop has taken the window's bytes but the last, and its state is about these. At s it takes the last byte, one inspection, judges the window,
// and lets the byte at s leave. So a search can go on in another slice with the state that it has, and no byte is taken twice.

#![tactic(auto)]

ghost use Rattle.std.specs.Prelude.{ℕ, List, ◌-◌, ◌≤◌, length};
ghost use Rattle.jumbled.specs.Scan.{Judged};
ghost use Rattle.loop_forward.specs.Sliding.{Begun, Slidable, SlidOver};

use lent::Range;

// The state before a text's first window, and the inspections that it took.
#[derive(Clone, Copy, Debug, PartialEq, Eq)]
pub struct Started<S> {
    pub state: S,
    pub inspections: usize,
}

// Where a search stands: the state at the next window start, the list's next place and the inspections.
#[derive(Clone, Copy, Debug, PartialEq, Eq)]
pub struct Slid<S> {
    pub state: S,
    pub next: usize,
    pub at: usize,
    pub inspections: usize,
}

// A forward method, with what it has made of its pattern.
pub trait Forward {
    // What is known of the bytes that were taken of a window.
    type State: Copy;

    ghost pattern: { Self → List ℕ };

    ghost judged: { Self → List ℕ → Judged };

    // A state is that of these bytes.
    ghost keeps: { Self → List ℕ → Self.State → Type 0 };

    // The bytes of the first window but its last are taken.
    fn start(&self, text: &[u8]) -> Started<Self::State>
        requires { length (pattern self.now) - 1 ≤ length text.now }
        ensures { Begun (keeps self.now) (length (pattern self.now)) text.now result };

    // The range's windows are judged, from the state at the first one on. The search ends with the window that takes the list's last place.
    fn slide(
        &self,
        text: &[u8],
        state: Self::State,
        range: Range,
        list: &mut [u32],
    ) -> Slid<Self::State>
        requires { Slidable (keeps self.now) (length (pattern self.now)) text.now state range }
        ensures { SlidOver (keeps self.now) (judged self.now) (length (pattern self.now)) text.now range list.old list.new result };

    // No verification takes more than a window's bytes.
    ghost verifies: { (method : Self) (W : List ℕ) → (judged method W).verification ≤ 64 };
}
