// The text that the program `bench` prints for the bytes that it reads.
//
// Follows docs/RULES.md, "The program". All work is done in memory, so that its whole output is proved; the program around it only
// reads and writes. A report takes the time of its two readings, its preparation and its search, and about 70 KB of stack.

#![tactic(auto)]

mod lines;
mod reporting;
mod texts;

pub use reporting::{ShortText, report};
pub use texts::TEXT_ROOM;
