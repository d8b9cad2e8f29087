// A search by tables that the host has as bytes, of a pattern and a trace that are converted already.
//
// Follows docs/RULES.md, "The C entry points", Entries. The front of each table, which is all that a search reads, is converted into a
// local array: 8 KB of stack, and a turn for each entry beside what `search::search` takes.

ghost use Rattle.std.specs.Prelude.{◌/◌, length};
ghost use Rattle.sizes.specs.Lengths.{Room};
ghost use Rattle.search.specs.SearchPromise.{SearchPromise};
ghost use Rattle.words.specs.Bytes.{first_entries};

use crate::lent::Tables;
use crate::reading::front;
use order::{Counts, Refusal};

impl Tables<'_> {
    // Searches by a pattern's samples and its tables, into lists of numbers. Four arrays, since `search` takes four slices.
    pub(crate) fn search(
        self,
        pattern: &[i32],
        trace: &[i32],
        kept: &mut [u32],
        listed: &mut [u32],
    ) -> Result<Counts, Refusal>
        requires { Room (length pattern.now) (length self.low.now / 2) (length self.high.now / 2) (length self.witness_i.now / 2) (length self.witness_j.now / 2) }
        ensures { SearchPromise pattern.now (first_entries self.entry.low.now (length pattern.now)) (first_entries self.entry.high.now (length pattern.now)) (first_entries self.entry.witness_i.now (length pattern.now)) (first_entries self.entry.witness_j.now (length pattern.now)) trace.now kept.old listed.old result kept.new listed.new }
    {
        let m = pattern.len();
        let mut lows = [0u16; 1024];
        front(self.low, m, &mut lows);
        let mut highs = [0u16; 1024];
        front(self.high, m, &mut highs);
        let mut is = [0u16; 1024];
        front(self.witness_i, m, &mut is);
        let mut js = [0u16; 1024];
        front(self.witness_j, m, &mut js);
        search::search(
            pattern,
            &lows[0..m],
            &highs[0..m],
            &is[0..m],
            &js[0..m],
            trace,
            kept,
            listed,
        )
    }
}
