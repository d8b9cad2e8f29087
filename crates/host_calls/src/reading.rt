// The host's bytes as numbers at the front of a local array: a buffer's samples, and the part of a table that a search reads.
//
// Follows docs/RULES.md, "The C entry points", Entries. One turn a sample or entry.

ghost use Rattle.std.specs.Prelude.{◌≡◌, ◌/◌, ◌≤◌, length, take};
ghost use Rattle.words.specs.Bytes.{samples_in, first_entries};

use words::{take_entries, take_samples};

// All samples of a buffer.
pub(crate) fn all_samples(bytes: &[u8], samples: &mut [i32])
    requires { length bytes.now / 4 ≤ length samples.old }
    ensures { take (length bytes.now / 4) samples.new ≡ samples_in bytes.now }
{
    take_samples(bytes, samples);
}

// The first m entries of a table.
pub(crate) fn front(table: &[u8], m: usize, entries: &mut [u16])
    requires { (m ≤ length entries.old) × (m ≤ length table.now / 2) }
    ensures { take m entries.new ≡ first_entries table.now m }
{
    take_entries(table, &mut entries[0..m]);
}
