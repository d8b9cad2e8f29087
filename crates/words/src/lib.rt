// Numbers and bytes: numbers of two and of four bytes, and lists to and from bytes.
//
// Follows docs/RULES.md, "Sizes", "Recordings" and "The C entry points", Entries and Left-over bytes. Every call answers every length:
// a list and a buffer hand over as many whole entries as both sides have, and all else stays as it was. A turn an entry, which the
// compiler makes a copy of blocks, and no memory of its own.

#![tactic(auto)]

mod lists;
mod numbers;

pub use lists::{put_entries, put_samples, put_words, take_entries, take_samples};
pub use numbers::word_at;
