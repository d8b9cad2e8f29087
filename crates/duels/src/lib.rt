// The duels: the windows of a trace that hold no lost stitch arrive one after the other, and each duels with the top of a stack of kept
// windows until the two agree or it falls. What the stack holds at the end are the survivors. All other windows are struck before.
//
// Follows docs/RULES.md, "Lost stitches" and "Duels" (Jargalsaikhan 2022, section 3, counted from zero), by the entries of two witness
// tables as they stand. Each duel drops a window, so N windows fight at most N duels, of one comparison each. Assumes nothing of its
// callers: with a pattern's own tables these are the rules' duels, and tables with an entry that names a place and tells no witness are
// refused.

#![tactic(auto)]

mod answers;
mod arrivals;
mod codes;
mod dueling;
mod field;
mod runs;

pub use answers::{Duelled, Unfought};
pub use dueling::duel_windows;
