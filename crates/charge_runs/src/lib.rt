// What the hours come to that windows cover, in one pass over the positions at which the windows begin (document 02, T-10).

#![tactic(auto)]

ghost use Rattle.std.specs.Prelude.{◌≡◌};
ghost use Rattle.charge_form.specs.Charge.{sixes_begun};
ghost use Rattle.charge_runs.specs.Covering.{Coverable, Covers};

// How many hours are marked, and how often six hours are begun in their runs.
#[derive(Clone, Copy, Debug, PartialEq, Eq)]
pub struct Covered {
    pub hours: usize,
    pub sixes: usize,
}

// How often six hours are begun in a run.
fn sixes_begun(hours: usize) -> usize
    ensures { result ≡ sixes_begun hours }
{
    hours.div_ceil(6)
}

// The windows have m hours. Their positions are ascending, so that a window marks new hours at the end of the last run, or begins a run of its own.
pub fn cover(m: usize, positions: &[u32]) -> Covered
    requires { Coverable m positions.now }
    ensures { Covers m positions.now result }
{
    let mut hours = 0; // of the runs that are over
    let mut sixes = 0;
    let mut run = 0; // the hours right before `end` that are marked
    let mut end = 0; // of the windows so far
    for position in positions {
        let start = *position as usize;
        if end < start {
            // An hour lies between that no window has: the run is over.
            hours += run;
            sixes += sixes_begun(run);
            run = 0;
            end = start;
        }
        // Hours that the last window has too are counted already.
        run += start + m - end;
        end = start + m;
    }
    Covered {
        hours: hours + run,
        sixes: sixes + sixes_begun(run),
    }
}
