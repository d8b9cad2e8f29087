// A list of windows in a lent buffer: one window more at its end, and "unused" in the entries behind it.
//
// Follows docs/RULES.md, "Sweep" and "What is written". A store an entry. Assumes nothing of its callers: what lies past a buffer's end is
// not written.

#![tactic(auto)]

mod growing;
mod unused_entries;

pub use growing::list_one;
pub use unused_entries::fill_unused;
