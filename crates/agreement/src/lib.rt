// The call on two windows: whether a pattern's witness tables let them stand beside each other.
//
// Follows docs/RULES.md, "Agree" and "Refusals", numbers 1 to 3. Sizes are looked at first; then one entry at most is read, as it stands.

#![tactic(auto)]

mod windows;

pub use windows::agree;
