// Recordings: a trailer at the end of the bytes points back to the samples before it.
//
// Follows docs/RULES.md, "Recordings" and "Refusals", numbers 8 to 12 and 18 to 20. Reading and writing take a step a sample and no
// memory of their own, and a call that is refused has stored nothing. Assumes nothing of its callers.

#![tactic(auto)]

mod reading;
mod trailer;
mod writing;

pub use reading::{Reading, read};
pub use trailer::Trailer;
pub use writing::write;
