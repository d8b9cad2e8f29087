// The duels of a trace's windows, by two witness tables as they stand.
//
// Follows docs/RULES.md, "Duels", "What is written" and "Refusals", numbers 1 to 5. Lengths are looked at first, then the entries, so a
// call that fights no duels has stored nothing. Where no entry names a place a window costs a store, and two where a stitch is lost. All
// other tables cost a turn an offset (codes.rt), D comparisons of the trace and 2 KB of stack.

ghost use Rattle.std.specs.Prelude.{◌≡◌, true, ◌≤◌, length};
ghost use Rattle.duels.specs.DuelPromise.{DuelPromise};
ghost use Rattle.duels.specs.Inside.Stacks.{SameBehind, AllFree, KeptOf, Fought};

use crate::answers::{Duelled, Unfought};
use crate::arrivals::keep_all;
use crate::codes::{Codes, none_told, write_codes};
use crate::field::{Armed, Field};
use lists::fill_unused;
use order::PATTERN_LIMIT;
use stitches::holds_lost;

impl<'a, 'b> Armed<'a, 'b> {
    // The windows that take part arrive, one way or the other: what they leave on the stack, with "unused" behind it.
    fn keep(self, survivors: &mut [u32]) -> Duelled
        requires { self.field.windows ≤ length survivors.old }
        ensures { KeptOf self.entry.field.pattern.now self.entry.field.witness_i.now self.entry.field.witness_j.now self.entry.field.trace.now survivors.old survivors.new result }
    {
        let after = self.arrive_runs(survivors);
        let windows = self.field.windows;
        let kept = after.kept;
        fill_unused(&mut survivors[kept..windows]);
        let arrived = after.windows;
        let dropped = arrived - kept;
        let fought = dropped - after.both;
        let struck = windows - arrived;
        Duelled {
            kept,
            fought: fought as u32,
            struck: struck as u32,
        }
    }
}

impl<'a> Field<'a> {
    // The windows arrive and duel by the codes of their offsets, unless one has entries that name a place and tell no witness.
    fn fight(self, survivors: &mut [u32]) -> Result<Duelled, Unfought>
        requires { self.windows ≤ length survivors.old }
        ensures { Fought self.entry.pattern.now self.entry.witness_i.now self.entry.witness_j.now self.entry.trace.now survivors.old survivors.new result }
    {
        let mut room = [Codes::UNSEEN; PATTERN_LIMIT];
        let codes = &mut room[..self.pattern.len()];
        write_codes(self, codes)?;
        let armed = Armed {
            field: self,
            codes: Some(codes),
        };
        Ok(armed.keep(survivors))
    }

    // Writes all windows down, and tells whether these are the ones kept, where all agree: they are if no stitch is lost.
    fn all_kept(self, survivors: &mut [u32]) -> bool
        requires { self.windows ≤ length survivors.old }
        ensures { (result ≡ true → AllFree self.entry.trace.now self.entry.windows survivors.old survivors.new) × SameBehind self.entry.windows survivors.old survivors.new }
    {
        let windows = self.windows;
        if windows == 0 {
            return false;
        }
        let reach = self.pattern.len() - 1;
        if keep_all(self.trace, reach, windows, survivors) {
            return false;
        }
        if holds_lost(&self.trace[0..reach]) {
            return false;
        }
        true
    }

    // The windows arrive, with duels or without: where no entry names a place all of them agree, and there is no code to look at.
    fn arrive_all(self, survivors: &mut [u32]) -> Result<Duelled, Unfought>
        requires { self.windows ≤ length survivors.old }
        ensures { Fought self.entry.pattern.now self.entry.witness_i.now self.entry.witness_j.now self.entry.trace.now survivors.old survivors.new result }
    {
        if !none_told(self.witness_i, self.pattern.len()) {
            return self.fight(survivors);
        }
        if self.all_kept(survivors) {
            return Ok(Duelled {
                kept: self.windows,
                fought: 0,
                struck: 0,
            });
        }
        let agreed = Armed {
            field: self,
            codes: None,
        };
        Ok(agreed.keep(survivors))
    }
}

// The duels of a trace's windows, on a stack in the survivors buffer: what is kept, how many were fought, and how many windows were struck
// before them. The two witness tables come side by side, as the C call hands them over and as `DuelPromise` takes them.
pub fn duel_windows(
    pattern: &[i32],
    witness_i: &[u16],
    witness_j: &[u16],
    trace: &[i32],
    survivors: &mut [u32],
) -> Result<Duelled, Unfought>
    ensures { DuelPromise pattern.now witness_i.now witness_j.now trace.now survivors.old result survivors.new }
{
    let m = pattern.len();
    let room = survivors.len();
    sizes::for_agreement(m, witness_i.len(), witness_j.len())?;
    // there are no positions in the duels: the same room again refuses nothing
    let windows = sizes::for_room(m, trace.len(), room, room)?;
    let field = Field {
        pattern,
        witness_i,
        witness_j,
        trace,
        windows,
    };
    field.arrive_all(survivors)
}
