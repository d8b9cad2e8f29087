// The sweep by the tables, for every pattern that goes no one way throughout (course.rt).
//
// Follows docs/RULES.md, "Sweep". It is the crate `sweep`'s, of the survivors by the pattern's own entries, and makes at most 2(n + S)
// comparisons; W, the rules' count, is just what it makes. Callers hand over the pattern's survivors.

ghost use Rattle.std.specs.Prelude.{◌≤◌, length};
ghost use Rattle.search.specs.Inside.Asked.{Kept};
ghost use Rattle.search.specs.Inside.Sweeps.{SweepOf};

use crate::checked::Checked;
use sweep::{Swept, sweep};

impl<'a> Checked<'a> {
    // All survivors, by their windows.
    pub(crate) fn sweep_mixed(self, survivors: &[u32], positions: &mut [u32]) -> Swept
        requires { Kept self.pattern.now self.trace.now survivors.now (length survivors.now) × (length survivors.now ≤ length positions.old) }
        ensures { SweepOf self.entry.pattern.now self.entry.trace.now (length survivors.now) positions.old positions.new result.spent 0 result.found }
    {
        let m = self.pattern.len();
        // never refused: the positions have room for all survivors
        sweep(
            &self.low[..m],
            &self.high[..m],
            self.trace,
            survivors,
            positions,
        )
        .unwrap()
    }
}
