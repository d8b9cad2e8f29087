// The calls of a C host, on little-endian bytes: preparation, and search in three sizes of local arrays.
//
// Follows docs/RULES.md, "The C entry points". The pattern and all lengths are checked, bytes become numbers in local arrays, the crate
// `search` is called, and what it wrote becomes bytes again. The stack that each call takes is said in its file. The exported functions are
// in the crate `tension_host`, one call each.

#![tactic(auto)]

mod lent;
mod preparing;
mod reading;
mod searching;
mod tiers;

pub use preparing::prepare;
pub use tiers::{search, search_large};
