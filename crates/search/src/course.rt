// Which way a search goes. A pattern that agrees with itself one sample on is steady: it rises, falls or stays level throughout. Its
// windows fight no duels, and its tests are one comparison each (steady.rt). Every other pattern has duels and a sweep by its tables.
//
// Follows docs/RULES.md, "Agree" and "Duels". One entry of a table and one comparison of the pattern's first two samples decide it, once
// for a search.

ghost use Rattle.search.specs.Inside.Courses.{Chosen};

use crate::checked::Checked;
use order::{NONE, compare};
use std::cmp::Ordering;

impl<'a> Checked<'a> {
    // The way of a steady pattern, which is how each sample compares with the one before it, or none of a mixed one. A pattern of a single
    // sample is steady whatever is said of its steps: it has none.
    pub(crate) fn course(self) -> Option<Ordering>
        ensures { Chosen self.entry.pattern.now result }
    {
        if self.pattern.len() <= 1 {
            return Some(Ordering::Equal);
        }
        if self.witness_i[1] == NONE {
            return Some(compare(self.pattern[1], self.pattern[0]));
        }
        None
    }
}
