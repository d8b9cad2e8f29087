// The conditions on a pattern, and on the lengths of tables, traces and buffers, under which a call is refused before it looks at anything
// else or stores anything.
//
// Follows docs/RULES.md, "Sizes" and "Refusals", numbers 1 to 6 and 21. One look at the pattern at most, and a handful of comparisons.
// Assumes nothing of its callers.

#![tactic(auto)]

mod lost_stitches;
mod search_sizes;
mod short_tables;
mod table_sizes;

pub use search_sizes::{for_room, for_search};
pub use table_sizes::{for_agreement, for_pattern, for_tables};
