// A pattern's four tables: preparation writes them, and a check tells whether tables are the pattern's own.
//
// Follows docs/RULES.md, "Neighbours", "Witness", "What is written" and "Refusals" (Jargalsaikhan 2022 for witnesses). A call
// that is refused has stored nothing: sizes are looked at first, then the work is done.

#![tactic(auto)]

mod claimed;
mod handed;
mod neighbours;
mod own_tables;
mod preparation;
mod sample;
mod site;
mod witnesses;

pub use own_tables::check_tables;
pub use preparation::{prepare, prepare_neighbours};
pub use sample::Sample;
