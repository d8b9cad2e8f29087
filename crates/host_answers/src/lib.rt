// A call's answer as a C host gets it: one number for how the call ended, and a search's lists and counts as bytes.
//
// Follows docs/RULES.md, "The C entry points", Result and Counts. A turn for each entry that is written; a refusal writes no byte. Assumes
// nothing of its callers.

#![tactic(auto)]

mod answering;
mod results;

pub use answering::put_answer;
pub use results::{ACCEPTED, result_of};
