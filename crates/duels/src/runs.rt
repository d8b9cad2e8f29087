// The runs of windows between the lost stitches of a trace, each to its end.
//
// Follows docs/RULES.md, "Lost stitches": a window that holds one does not arrive. A trace without any is one run, and costs the one look
// that tells so, by fours. In all others the samples are looked at once more, by blocks. Callers hand over a buffer with room for
// every window.

ghost use Rattle.std.specs.Prelude.{◌≡◌, ◌≤◌, ◌<◌, length};
ghost use Rattle.order.specs.Sizes.{trace_limit};
ghost use Rattle.order.specs.Lost.{holds_lost_lem};
ghost use Rattle.duels.specs.Inside.Asked.{LostFrom};
ghost use Rattle.duels.specs.Inside.Stacks.{ArrivedOf, RunAhead, RunOf, SameBehind};

use crate::arrivals::{Arrived, keep_run};
use crate::field::{Armed, Field};
use stitches::{first_lost, holds_lost};

// The first lost stitch of a trace from a sample on, or the trace's end; `lost` says whether there are any at all. `lost` is a parameter:
// the one look at the whole trace is made before the runs.
fn lost_from(trace: &[i32], lost: bool, from: usize) -> usize
    requires { (lost ≡ holds_lost_lem trace.now) × (from ≤ length trace.now) × (length trace.now ≤ trace_limit) }
    ensures { LostFrom trace.now from result }
{
    if lost {
        return from + first_lost(&trace[from..]);
    }
    trace.len()
}

// Where a run of windows ends, and the first window behind the lost stitch that ends it.
#[derive(Clone, Copy)]
struct Run {
    past: usize,
    next: usize,
}

impl<'a> Field<'a> {
    // The run from window `from` on: the windows up to the next lost stitch.
    fn run_from(self, lost: bool, from: usize) -> Run
        requires { (lost ≡ holds_lost_lem self.trace.now) × (from < self.windows) }
        ensures { RunOf self.entry.pattern.now self.entry.trace.now from result.past result.next }
    {
        let m = self.pattern.len();
        let end = lost_from(self.trace, lost, from);
        let next = end + 1;
        if end < from + m {
            return Run { past: from, next };
        }
        let past = end - m + 1;
        Run { past, next }
    }
}

impl<'a, 'b> Armed<'a, 'b> {
    // One run, with duels by the codes, or without where all windows agree.
    fn arrive_run(self, from: usize, past: usize, before: Arrived, survivors: &mut [u32]) -> Arrived
        requires { (self.field.windows ≤ length survivors.old) × RunAhead self.field.pattern.now self.field.trace.now from past × ArrivedOf self.field.pattern.now self.field.witness_i.now self.field.witness_j.now self.field.trace.now survivors.old from before }
        ensures { ArrivedOf self.entry.field.pattern.now self.entry.field.witness_i.now self.entry.field.witness_j.now self.entry.field.trace.now survivors.new past result × SameBehind self.entry.field.windows survivors.old survivors.new }
    {
        let Some(codes) = self.codes else {
            let count = past - from;
            let kept = before.kept + count;
            keep_run(from, &mut survivors[before.kept..kept]);
            return Arrived {
                windows: before.windows + count,
                kept,
                both: before.both,
            };
        };
        self.field.duel_run(codes, from, past, before, survivors)
    }

    // All windows of the trace that hold no lost stitch arrive, run by run.
    pub(crate) fn arrive_runs(self, survivors: &mut [u32]) -> Arrived
        requires { self.field.windows ≤ length survivors.old }
        ensures { ArrivedOf self.entry.field.pattern.now self.entry.field.witness_i.now self.entry.field.witness_j.now self.entry.field.trace.now survivors.new self.entry.field.windows result × SameBehind self.entry.field.windows survivors.old survivors.new }
    {
        let lost = holds_lost(self.field.trace);
        let mut so_far = Arrived {
            windows: 0,
            kept: 0,
            both: 0,
        };
        let mut from: usize = 0;
        while from < self.field.windows {
            let run = self.field.run_from(lost, from);
            so_far = self.arrive_run(from, run.past, so_far, survivors);
            from = run.next;
        }
        so_far
    }
}
