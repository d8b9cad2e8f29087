// The sweep: windows of a trace are tested one after the other, place by place, by the entries of two tables as they stand, and none at
// a sample of the trace that an earlier one has passed. A window that passes all its places is listed.
//
// Follows docs/RULES.md, "Sweep" (Jargalsaikhan 2022, section 3, counted from zero). Assumes nothing of its callers: with a pattern's own
// tables and its survivors it is the rules' sweep, and of other tables or windows it is what it says.

#![tactic(auto)]

mod answers;
mod sweeping;

pub use answers::{Reached, Swept};
pub use sweeping::sweep;
