// Same-order search by a pattern and its tables.
//
// Follows docs/RULES.md, "Lost stitches", "Test of a place", "Duels", "Sweep" and "Refusals" (Jargalsaikhan 2022 for duels and sweep). A
// call that is refused has stored nothing: the pattern and the sizes are looked at first, then the tables, then the work is done.

#![tactic(auto)]

mod checked;
mod course;
mod mixed;
mod searching;
mod steady;

pub use searching::search;
