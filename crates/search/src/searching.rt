// Search: what a pattern, with its tables, has for survivors and matches in a trace, and what finding them counts.
//
// Follows docs/RULES.md, "Duels", "Sweep", "Counts", "What is written" and "Refusals" (Jargalsaikhan 2022, section 3). The pattern and the
// sizes are looked at first, then the tables, then the work is done: a refused call has stored nothing. The duels make D comparisons of the
// trace and the sweep at most 2(n + S), blocks and looks that fail counted in; the pattern is compared with itself besides, twice for each
// offset with a witness or once (duels/codes.rt, course.rt). The head of tables/own_tables.rt says what the check takes.

ghost use Rattle.std.specs.Prelude.{◌≡◌, ◌≤◌, length};
ghost use Rattle.order.specs.Sizes.{windows_of};
ghost use Rattle.order.specs.Refusals.{search_verdict};
ghost use Rattle.order.specs.Answers.{answer_by};
ghost use Rattle.search.specs.Inside.Asked.{SurvivorsOf, Kept, SearchedOf};
ghost use Rattle.search.specs.Inside.Courses.{Chosen};
ghost use Rattle.search.specs.Inside.Sweeps.{SweepOf};
ghost use Rattle.search.specs.SearchPromise.{SearchPromise};

use crate::checked::Checked;
use crate::steady::{Effort, Survivors};
use duels::{Duelled, duel_windows};
use lists::fill_unused;
use order::{Counts, Refusal};
use std::cmp::Ordering;

// All the conditions of a search, in their order; where none holds, the number of windows. Where there is room, the check of the tables
// tries all that is left, and the pattern is looked at once. The tables come one by one, as `search` takes them: nothing is known of them
// yet, and `Checked` is made of those that pass.
fn check_search(
    pattern: &[i32],
    low: &[u16],
    high: &[u16],
    witness_i: &[u16],
    witness_j: &[u16],
    trace: &[i32],
    survivors: usize,
    positions: usize,
) -> Result<usize, Refusal>
    ensures { result ≡ answer_by (search_verdict pattern.now low.now high.now witness_i.now witness_j.now trace.now survivors positions) (windows_of (length pattern.now) (length trace.now)) }
{
    let Ok(windows) = sizes::for_room(pattern.len(), trace.len(), survivors, positions) else {
        // what comes before the room in their order may refuse as well
        return sizes::for_search(
            pattern,
            low.len(),
            high.len(),
            witness_i.len(),
            witness_j.len(),
            trace.len(),
            survivors,
            positions,
        );
    };
    tables::check_tables(pattern, low, high, witness_i, witness_j)?;
    Ok(windows)
}

impl<'a> Checked<'a> {
    // The duels, by the pattern's own tables.
    fn keep_windows(self, survivors: &mut [u32]) -> Duelled
        requires { self.windows ≤ length survivors.old }
        ensures { SurvivorsOf self.entry.pattern.now self.entry.trace.now survivors.old survivors.new result }
    {
        // the pattern, lengths and entries were looked at
        duel_windows(
            self.pattern,
            self.witness_i,
            self.witness_j,
            self.trace,
            survivors,
        )
        .unwrap()
    }

    // The sweep, the pattern's way: what it leaves, and the comparisons that it made besides those that the rules count.
    fn sweep_windows(
        self,
        survivors: &[u32],
        course: Option<Ordering>,
        positions: &mut [u32],
    ) -> Effort
        requires { Kept self.pattern.now self.trace.now survivors.now (length survivors.now) × (length survivors.now ≤ length positions.old) × Chosen self.pattern.now course }
        ensures { SweepOf self.entry.pattern.now self.entry.trace.now (length survivors.now) positions.old positions.new result.swept.spent result.wasted result.swept.found }
    {
        // Two ways, one struct each, told apart by an `Option`: a closure for the sweep would be one of these two calls, and the contract
        // above would be written a second time as its law.
        match course {
            Some(way) => {
                let steady = Survivors {
                    pattern: self.pattern,
                    trace: self.trace,
                    way,
                    windows: survivors,
                };
                steady.sweep_steady(positions)
            }
            None => Effort {
                swept: self.sweep_mixed(survivors, positions),
                wasted: 0,
            },
        }
    }

    // The search itself: the duels, then the sweep, and "unused" after its list too.
    fn run(self, survivors: &mut [u32], positions: &mut [u32]) -> Counts
        requires { (self.windows ≤ length survivors.old) × (self.windows ≤ length positions.old) }
        ensures { SearchedOf self.entry.pattern.now self.entry.trace.now survivors.old positions.old survivors.new positions.new result }
    {
        let duelled = self.keep_windows(survivors);
        let course = self.course(); // after the duels, whose loop would keep registers for it
        let kept = duelled.kept;
        let swept = self
            .sweep_windows(&survivors[..kept], course, positions)
            .swept;
        let found = swept.found;
        fill_unused(&mut positions[found..self.windows]);
        Counts {
            windows: self.windows as u32,
            duels: duelled.fought,
            survivors: kept as u32,
            sweep: swept.spent as u32,
            found: found as u32,
            struck: duelled.struck,
        }
    }
}

// Searches a trace for the windows that are isomorphic with the pattern. The four tables come one by one, as callers keep them
// (docs/DECISIONS.md, "Today's forms"): a struct of them would be built by each caller for this one call.
pub fn search(
    pattern: &[i32],
    low: &[u16],
    high: &[u16],
    witness_i: &[u16],
    witness_j: &[u16],
    trace: &[i32],
    survivors: &mut [u32],
    positions: &mut [u32],
) -> Result<Counts, Refusal>
    ensures { SearchPromise pattern.now low.now high.now witness_i.now witness_j.now trace.now survivors.old positions.old result survivors.new positions.new }
{
    let windows = check_search(
        pattern,
        low,
        high,
        witness_i,
        witness_j,
        trace,
        survivors.len(),
        positions.len(),
    )?;
    let checked = Checked {
        pattern,
        low,
        high,
        witness_i,
        witness_j,
        trace,
        windows,
    };
    Ok(checked.run(survivors, positions))
}
