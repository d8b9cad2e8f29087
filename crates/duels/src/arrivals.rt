// A run of windows, none of which holds a lost stitch, arrives in order. Each window duels with the top of a stack of kept windows until
// the two agree or it falls.
//
// Follows docs/RULES.md, "Duels" (Jargalsaikhan 2022, section 3, counted from zero). A duel is one comparison of the trace. The stack is
// the survivors buffer itself. Where all windows agree there are no duels, and a window costs a store. Callers hand over a buffer with
// room for every window, and how the pattern compares at each witness (codes.rt).

ghost use Rattle.std.specs.Prelude.{◌≡◌, false, length, ◌+◌, ◌≤◌};
ghost use Rattle.order.specs.Sizes.{trace_limit};
ghost use Rattle.order.specs.Duels.{duel as duel_of};
ghost use Rattle.stitches.specs.Inside.{FreeWithin};
ghost use Rattle.duels.specs.DuelPromise.{meets_by};
ghost use Rattle.duels.specs.Inside.Codes.{own_code_lem, start_code, Coded};
ghost use Rattle.duels.specs.Inside.Asked.{Duelable, Meetable};
ghost use Rattle.duels.specs.Inside.Stacks.{ArrivedOf, RunAhead, SameBehind, pushed_run};

use crate::codes::{Codes, code_between};
use crate::field::Field;
use order::{LOST, Meeting, NONE, Offset, Place, Window};

// What the windows so far have left: how many have arrived, how many of them are kept, and how many fell together with another.
#[derive(Clone, Copy)]
pub(crate) struct Arrived {
    pub windows: usize,
    pub kept: usize,
    pub both: usize,
}

// Whether an arriving window ends on the stack. An enum, and the loops below labelled: docs/PROMISES.md, "Forms", names this form.
#[derive(Clone, Copy)]
enum Arrival {
    Pushed,
    Dropped,
}

impl<'a> Field<'a> {
    // The duel of window y with the window a before it, by the witness (i, j) and how the pattern compares there: one comparison of the
    // trace. Where the older window stands the newer can't, since a witness compares differently at its offset, so the newer is looked
    // at only where the older has fallen.
    fn duel(self, y: Window, a: Offset, i: Place, j: Place, codes: Codes) -> Meeting
        requires { Duelable self.pattern.now self.trace.now y.0 a.0 i.0 j.0 × (codes.older ≡ own_code_lem self.pattern.now a.0 i.0 j.0) × (codes.newer ≡ start_code self.pattern.now i.0 j.0) }
        ensures { result ≡ duel_of self.entry.pattern.now self.entry.trace.now y.0 a.0 i.0 j.0 }
    {
        let seen = code_between(self.trace[y.0 + i.0], self.trace[y.0 + j.0]);
        if seen == codes.older {
            return Meeting::NewerFalls;
        }
        if seen == codes.newer {
            return Meeting::OlderFalls;
        }
        Meeting::BothFall // it suits neither
    }

    // What becomes of window x when the later window y looks at it.
    fn meet(self, codes: &[Codes], x: Window, y: Window) -> Meeting
        requires { Meetable self.pattern.now self.witness_i.now self.witness_j.now codes.now self.trace.now x.0 y.0 }
        ensures { result ≡ meets_by self.entry.pattern.now self.entry.witness_i.now self.entry.witness_j.now self.entry.trace.now x.0 y.0 }
    {
        let a = y.0 - x.0;
        if self.pattern.len() <= a {
            return Meeting::Agree;
        }
        let i = self.witness_i[a];
        if i == NONE {
            return Meeting::Agree;
        }
        let j = self.witness_j[a];
        self.duel(
            y,
            Offset(a),
            Place(usize::from(i)),
            Place(usize::from(j)),
            codes[a],
        )
    }

    // The windows from `from` up to `past` arrive, on the stack that those before them left. Each duel drops one window, or both: so the
    // duels fought are the windows dropped less those where both fell, and only these are counted on the way. The stack is the host's
    // buffer and `kept`: `Arrived` carries it from run to run.
    pub(crate) fn duel_run(
        self,
        codes: &[Codes],
        from: usize,
        past: usize,
        before: Arrived,
        survivors: &mut [u32],
    ) -> Arrived
        requires { (self.windows ≤ length survivors.old) × Coded self.pattern.now self.witness_i.now self.witness_j.now codes.now (length self.pattern.now) × RunAhead self.pattern.now self.trace.now from past × ArrivedOf self.pattern.now self.witness_i.now self.witness_j.now self.trace.now survivors.old from before }
        ensures { ArrivedOf self.entry.pattern.now self.entry.witness_i.now self.entry.witness_j.now self.entry.trace.now survivors.new past result × SameBehind self.entry.windows survivors.old survivors.new }
    {
        let mut kept = before.kept;
        let mut both = before.both;
        'windows: for y in from..past {
            let end = loop {
                if kept == 0 {
                    break Arrival::Pushed;
                }
                let x = survivors[kept - 1] as usize;
                match self.meet(codes, Window(x), Window(y)) {
                    Meeting::Agree => break Arrival::Pushed,
                    Meeting::OlderFalls => {
                        kept -= 1;
                    }
                    Meeting::NewerFalls => break Arrival::Dropped,
                    Meeting::BothFall => {
                        kept -= 1;
                        both += 1;
                        break Arrival::Dropped;
                    }
                }
            };
            let Arrival::Pushed = end else {
                continue 'windows;
            };
            survivors[kept] = y as u32;
            kept += 1;
        }
        Arrived {
            windows: before.windows + (past - from),
            kept,
            both,
        }
    }
}

// The windows from `from` on arrive where all windows agree: every one is pushed, and fills an entry. `list_all` (frames) lists places so:
// one function for both would be public, ask nothing of its callers, and promise of numbers past 32 bits what neither has a use for.
pub(crate) fn keep_run(from: usize, entries: &mut [u32])
    requires { from + length entries.old ≤ trace_limit + 1 }
    ensures { entries.new ≡ pushed_run entries.old 0 from (length entries.old) }
{
    for (k, entry) in entries.iter_mut().enumerate() {
        *entry = (from + k) as u32;
    }
}

// Writes all windows down, whether they take part or not, and tells whether a sample is lost, from the first window's last one on, which is
// `reach` samples after its start. Where there are no duels this is one pass: with a look for lost stitches by itself, a search of 2,048
// samples for a level or rising pattern of 4 took 1.11 of the time without it (docs/DECISIONS.md). It counts: over
// `survivors[..windows].iter_mut().zip(..)` no invariant can name the entries, which are lent out, and the goal `returns` stays open.
pub(crate) fn keep_all(trace: &[i32], reach: usize, windows: usize, survivors: &mut [u32]) -> bool
    requires { (reach + windows ≤ length trace.now) × (windows ≤ length survivors.old) × (length trace.now ≤ trace_limit) }
    ensures { (survivors.new ≡ pushed_run survivors.old 0 0 windows) × (result ≡ false → FreeWithin trace.now reach (reach + windows)) }
{
    let mut lost = false;
    for (y, sample) in trace[reach..reach + windows].iter().enumerate() {
        survivors[y] = y as u32;
        lost = lost | (*sample == LOST);
    }
    lost
}
