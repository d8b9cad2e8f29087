// The search for a patch in a camera's frame: every place where the frame's grey levels stand in the same order as the patch's.
//
// Follows docs/RULES.md, "Frames" and "Refusals", numbers 22 to 26. Sizes are checked before the first store, so a refused call leaves
// positions as it was. A place of the patch is tested by its two neighbours, as in the sweep of a trace, and at many columns of a row at
// once. Up to h × k tests a place, most of which are never made, and 29 KB of stack.

#![tactic(auto)]

mod answers;
mod blocks;
mod patches;
mod places;
mod reach;
mod rows;
mod searching;

pub use answers::Sighted;
pub use searching::search_frame;
