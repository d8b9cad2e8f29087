// The words that every crate of the library shares: how two samples compare, the three kinds of number that look alike,
// the limits, the refusals, what a test or a meeting comes to, and the counts of a search. The rules themselves are
// definitions, in specs/.
//
// Follows docs/RULES.md, "Sizes", "Relation", "Test of a place" and "Refusals". Each function takes a handful of steps and assumes nothing.

#![tactic(auto)]

mod kinds;
mod limits;
mod place_test;
mod refusal;
mod relation;
mod steps;

pub use kinds::{Offset, Place, Window};
pub use limits::{INPUT_LIMIT, LOST, NONE, PATTERN_LIMIT, RECORDING_LIMIT, TRACE_LIMIT, UNUSED};
pub use place_test::test_place;
pub use refusal::{Fault, Refusal, Table};
pub use relation::compare;
pub use steps::{Counts, Meeting, Tested};
