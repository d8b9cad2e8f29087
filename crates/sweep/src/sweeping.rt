// The sweep of a list of windows.
//
// Follows docs/RULES.md, "Sweep" (Jargalsaikhan 2022, section 3, counted from zero). E only rises, each window fails at most once, and a
// test makes at most two comparisons, so n samples and S windows take at most 2(n + S). A window has as many places as both tables have
// entries; one that does not lie in the trace is passed over.

ghost use Rattle.std.specs.Prelude.{◌≡◌, ◌≤◌, length};
ghost use Rattle.sweep.specs.Sweeps.{places_of, entry_tests, SweepPromise};
ghost use Rattle.sweep.specs.Inside.{Testable, SweptOne, SweptAll};

use crate::answers::{Reached, Swept};
use lists::list_one;
use order::{Place, Refusal, Tested, Window, test_place};

// What windows are tested by: two tables and the trace that the windows lie in, with the places of a window counted.
#[derive(Clone, Copy)]
struct Tests<'a> {
    low: &'a [u16],
    high: &'a [u16],
    trace: &'a [i32],
    m: usize,
    ghost places: { m ≡ places_of low.now high.now },
}

impl<'a> Tests<'a> {
    // The tests of window x from the sample `from` on.
    fn sweep_one(self, x: Window, from: usize, before: usize) -> Reached
        requires { Testable self.m self.trace.now x.0 from before }
        ensures { SweptOne (entry_tests self.entry.low.now self.entry.high.now self.entry.trace.now) self.entry.m x.0 from before result.reach result.spent result.whole }
    {
        let start = x.0;
        let m = self.m;
        let window = &self.trace[start..start + m];
        // Counted by hand: where the tests end is then the sum of two numbers. After a range it is the greater of two, three steps more a
        // window, which is a quarter of all that a sweep of a walk by four places takes.
        let mut j = from - start;
        let mut spent = before;
        while j < m {
            match test_place(self.low[j], self.high[j], window, Place(j)) {
                Tested::Passed(cost) => {
                    spent += cost as usize;
                    j += 1;
                }
                Tested::Failed(cost, _) => {
                    return Reached {
                        reach: start + j,
                        spent: spent + cost as usize,
                        whole: false,
                    };
                }
            }
        }
        Reached {
            reach: start + j,
            spent,
            whole: true,
        }
    }

    // All windows, into a list with room for them.
    fn sweep_all(self, windows: &[u32], positions: &mut [u32]) -> Swept
        requires { length windows.now ≤ length positions.old }
        ensures { SweptAll self.entry.low.now self.entry.high.now self.entry.trace.now windows.now positions.old positions.new result.spent result.found }
    {
        let mut reach: usize = 0;
        let mut spent: usize = 0;
        let mut found: usize = 0;
        for &x in windows {
            let start = x as usize;
            if self.trace.len() < start + self.m {
                continue;
            }
            let end = self.sweep_one(Window(start), reach.max(start), spent);
            reach = end.reach;
            spent = end.spent;
            found = list_one(positions, found, x, end.whole);
        }
        Swept { spent, found }
    }
}

// Sweeps windows by two tables, and lists those that pass from entry 0 of the positions on. Callers keep the tables as two slices, and
// `Tests`, built of them here, would be a struct that each of them builds for this one call.
pub fn sweep(
    low: &[u16],
    high: &[u16],
    trace: &[i32],
    windows: &[u32],
    positions: &mut [u32],
) -> Result<Swept, Refusal>
    ensures { SweepPromise low.now high.now trace.now windows.now positions.old result positions.new }
{
    let count = windows.len();
    if positions.len() < count {
        return Err(Refusal::ShortPositions(count));
    }
    let tests = Tests {
        low,
        high,
        trace,
        m: low.len().min(high.len()),
    };
    Ok(tests.sweep_all(windows, positions))
}
