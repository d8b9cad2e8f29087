// The sweep for a steady pattern, one that rises, falls or stays level throughout (course.rt).
//
// Follows docs/RULES.md, "Sweep". In such a pattern the place before is each place's one neighbour, so a test is one comparison, of a
// sample of the trace with the sample before it, and place 0 is free. Where 64 survivors start one after the other and the first has its
// last place alone left, they are a block: all pass exactly if the next 64 samples go the pattern's way. That takes 64 comparisons in a
// loop with no branch, which the compiler turns into steps of four samples, and it is what their tests are charged. A look at a block
// that fails is charged nothing, and the block's windows are then swept one by one. So the sweep makes at most n + 2 S comparisons, those
// of looks that fail counted in. Callers hand over the survivors of a steady pattern.

ghost use Rattle.std.specs.Prelude.{◌≡◌, true, ◌+◌, ◌-◌, ◌≤◌, ◌<◌, length};
ghost use Rattle.order.specs.Sizes.{trace_limit};
ghost use Rattle.order.specs.Relations.{rel, alike};
ghost use Rattle.order.specs.EntryTest.{told};
ghost use Rattle.sweep.specs.Inside.{Testable};
ghost use Rattle.search.specs.Inside.Asked.{Kept};
ghost use Rattle.search.specs.Inside.Courses.{Steady};
ghost use Rattle.search.specs.Inside.Runs.{block, GoesOn, LookOf, listed_run};
ghost use Rattle.search.specs.Inside.Sweeps.{Climbed, SweptTo, TurnOf, TurnedAll, SweepOf};

use lists::list_one;
use order::Window;
use std::cmp::Ordering;
use sweep::{Reached, Swept};

// The windows of a block.
const BLOCK: usize = 64;

// The survivors that are swept one by one after a look that failed, or where there is no block. No fewer than a block: the bound on the
// comparisons made rests on it. More, so that looks that fail cost little beside them.
const MANY: usize = 256;

// Whether a compares with b as told. A `match`: with `compare(a, b) == way` a search of 2,048 samples for a level pattern of 4 takes 3.27
// times the instructions, for one that rises 3.49 times, since `goes_on` is then no loop of steps of four.
fn goes(a: i32, b: i32, way: Ordering) -> bool
    ensures { result ≡ alike (rel a b) way }
{
    match way {
        Ordering::Less => a < b,
        Ordering::Equal => a == b,
        Ordering::Greater => b < a,
    }
}

// Whether sample e compares with the one before it as the pattern's do.
fn goes_at(trace: &[i32], e: usize, way: Ordering) -> bool
    requires { (0 < e) × (e < length trace.now) }
    ensures { result ≡ told trace.now e (e - 1) way }
{
    goes(trace[e], trace[e - 1], way)
}

// Whether each of a block's samples after sample e does.
fn goes_on(trace: &[i32], e: usize, way: Ordering) -> bool
    requires { (e + block < length trace.now) × (length trace.now ≤ trace_limit) }
    ensures { result ≡ true → GoesOn trace.now e block way }
{
    let mut all = true;
    // Counted: of the pairs of `trace[e..=e + BLOCK].windows(2)` the compiler makes shuffles, and a search of 2,048 samples for a level
    // pattern of 4 takes 1.04 times the instructions, for one that rises 1.06 times. Measured, a row of searches then took up to
    // 1.097 of its time, which is above the 1.05 that is held.
    for k in 0..BLOCK {
        all = all & goes(trace[e + 1 + k], trace[e + k], way);
    }
    all
}

// Lists a block: its entries of the survivors, from entry k on, from entry `found` of the positions on. Counted: for the library's
// `copy_from_slice` the archive would ask a C host for `memmove`, beside the `memcpy` and `memset` that it asks for.
fn list_block(survivors: &[u32], k: usize, positions: &mut [u32], found: usize)
    requires { (k + block ≤ length survivors.now) × (found + block ≤ length positions.old) }
    ensures { positions.new ≡ listed_run survivors.now k found block positions.old }
{
    for i in 0..BLOCK {
        positions[found + i] = survivors[k + i];
    }
}

// The survivors of a steady pattern: their windows, in the trace that they lie in, and the way that the pattern goes. Room in positions is
// asked of each method: a Copy struct can't hold what is lent to be written.
#[derive(Clone, Copy)]
pub(crate) struct Survivors<'a> {
    pub pattern: &'a [i32],
    pub trace: &'a [i32],
    pub way: Ordering,
    pub windows: &'a [u32],
    pub ghost steady: { Steady pattern.now way },
    pub ghost rows: { Kept pattern.now trace.now windows.now (length windows.now) },
}

// What the sweep leaves, and the comparisons of looks that failed, which the rules do not count.
#[derive(Clone, Copy)]
pub(crate) struct Effort {
    pub swept: Swept,
    pub wasted: usize,
}

// How far the sweep has come: E, the comparisons spent, and how many windows are listed.
#[derive(Clone, Copy)]
struct Progress {
    reach: usize,
    spent: usize,
    found: usize,
}

// What a look ahead tells: whether there is a block all of whose windows pass, and the comparisons that the look made. Either way these
// count: no `Option` of them.
#[derive(Clone, Copy)]
struct Look {
    whole: bool,
    made: usize,
}

// What one turn of the sweep leaves: the survivor that comes next, how far the sweep has come, and the comparisons of a look that failed.
#[derive(Clone, Copy)]
struct Turn {
    next: usize,
    end: Progress,
    wasted: usize,
}

impl<'a> Survivors<'a> {
    // The tests of survivor x from the sample `from` on.
    fn climb(self, x: Window, from: usize, before: usize) -> Reached
        requires { Testable (length self.pattern.now) self.trace.now x.0 from before × (from ≤ x.0 + length self.pattern.now) }
        ensures { Climbed self.entry.pattern.now self.entry.trace.now x.0 from before result.reach result.spent result.whole }
    {
        let first = from.max(x.0 + 1); // place 0 is free
        let stop = x.0 + self.pattern.len();
        match (first..stop).position(|e| !goes_at(self.trace, e, self.way)) {
            Some(passed) => Reached {
                reach: first + passed,
                spent: before + passed + 1,
                whole: false,
            },
            None => Reached {
                reach: stop,
                spent: before + (stop - first),
                whole: true,
            },
        }
    }

    // The survivors from entry `first` of their list up to, and not at, entry `to`, one by one. Beside `sweep_all` (sweep): with the tests
    // as a closure, its law would be `Climbed` or `SweptOne`.
    fn steady_some(
        self,
        first: usize,
        to: usize,
        before: Progress,
        positions: &mut [u32],
    ) -> Progress
        requires { (first ≤ to) × (to ≤ length self.windows.now) × SweptTo self.pattern.now self.trace.now (length self.windows.now) positions.old positions.old first before.reach before.spent before.found }
        ensures { SweptTo self.entry.pattern.now self.entry.trace.now (length self.entry.windows.now) positions.old positions.new to result.reach result.spent result.found × (result.spent + (before.reach + first) ≤ before.spent + (result.reach + to)) }
    {
        let mut reach = before.reach;
        let mut spent = before.spent;
        let mut found = before.found;
        for &x in &self.windows[first..to] {
            let start = x as usize;
            let end = self.climb(Window(start), reach.max(start), spent);
            reach = end.reach;
            spent = end.spent;
            found = list_one(positions, found, x, end.whole);
        }
        Progress {
            reach,
            spent,
            found,
        }
    }

    // Looks for a block from survivor k on, where the tests before it have come to the sample `reach`.
    fn look_ahead(self, k: usize, reach: usize) -> Look
        requires { (k < length self.windows.now) × (reach ≤ length self.trace.now) }
        ensures { LookOf self.entry.pattern.now self.entry.trace.now self.entry.windows.now (length self.entry.windows.now) k reach result.whole result.made }
    {
        let none = Look {
            whole: false,
            made: 0,
        };
        let x = self.windows[k] as usize;
        let last = k + (BLOCK - 1);
        if self.windows.len() <= last {
            return none;
        }
        if self.windows[last] as usize != x + (BLOCK - 1) {
            return none;
        }
        if reach + 1 != x + self.pattern.len() {
            return none;
        }
        if self.pattern.len() == 1 {
            return Look {
                whole: true,
                made: 0,
            };
        }
        Look {
            whole: goes_on(self.trace, reach - 1, self.way),
            made: BLOCK,
        }
    }

    // One turn from survivor k on: a block where one passes, and otherwise some survivors one by one before the next look.
    fn steady_turn(self, k: usize, before: Progress, positions: &mut [u32]) -> Turn
        requires { (k < length self.windows.now) × SweptTo self.pattern.now self.trace.now (length self.windows.now) positions.old positions.old k before.reach before.spent before.found }
        ensures { TurnOf self.entry.pattern.now self.entry.trace.now self.entry.windows.now (length self.entry.windows.now) positions.old positions.new k before.reach before.spent result.next result.end.reach result.end.spent result.end.found result.wasted }
    {
        let reach = before.reach;
        let look = self.look_ahead(k, reach);
        if look.whole {
            let found = before.found;
            list_block(self.windows, k, positions, found);
            return Turn {
                next: k + BLOCK,
                end: Progress {
                    reach: reach + BLOCK,
                    spent: before.spent + look.made,
                    found: found + BLOCK,
                },
                wasted: 0,
            };
        }
        let next = self.windows.len().min(k + MANY);
        let end = self.steady_some(k, next, before, positions);
        Turn {
            next,
            end,
            wasted: look.made,
        }
    }

    // All survivors: the first by itself, so that a block may follow it, then turn by turn.
    pub(crate) fn sweep_steady(self, positions: &mut [u32]) -> Effort
        requires { length self.windows.now ≤ length positions.old }
        ensures { SweepOf self.entry.pattern.now self.entry.trace.now (length self.entry.windows.now) positions.old positions.new result.swept.spent result.wasted result.swept.found × TurnedAll self.entry.pattern.now self.entry.trace.now self.entry.windows.now (length self.entry.windows.now) result.swept.spent result.wasted }
    {
        let nothing = Progress {
            reach: 0,
            spent: 0,
            found: 0,
        };
        let mut k = self.windows.len().min(1);
        let mut so_far = self.steady_some(0, k, nothing, positions);
        let mut wasted: usize = 0;
        while k < self.windows.len() {
            let turn = self.steady_turn(k, so_far, positions);
            let end = turn.end;
            so_far = end;
            k = turn.next;
            wasted += turn.wasted;
        }
        Effort {
            swept: Swept {
                spent: so_far.spent,
                found: so_far.found,
            },
            wasted,
        }
    }
}
