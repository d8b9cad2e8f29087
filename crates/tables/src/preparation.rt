// Preparation: from a pattern its four tables, or the two of its neighbours alone.
//
// Follows docs/RULES.md, "Neighbours", "Witness", "What is written" and "Refusals". The pattern and the sizes are checked before the first
// store, so a refused call leaves every table as it was. The neighbour tables take m² / 2 steps by fours and at most m² by
// eights; the witness tables are made from them. No array is kept.

ghost use Rattle.std.specs.Prelude.{◌≡◌, length, map};
ghost use Rattle.order.specs.Answers.{answer_by};
ghost use Rattle.sizes.specs.Lengths.{Room};
ghost use Rattle.tables.specs.Promises.{PreparePromise, neighbours_alone, NeighboursMade};
ghost use Rattle.tables.specs.Inside.Asked.{TablesWritten};

use crate::neighbours::write_neighbours;
use crate::sample::Sample;
use crate::witnesses::write_witnesses;
use order::{Refusal, Table};
use sizes::for_pattern;

// Writes the pattern's tables, each from entry 0 on. They come one by one: a struct of four `&mut` tables would be built by `prepare` for
// this one call, and taken apart at once for the two calls here, of which the first writes two tables that the second only reads.
fn write_tables(
    pattern: &[i32],
    low: &mut [u16],
    high: &mut [u16],
    witness_i: &mut [u16],
    witness_j: &mut [u16],
)
    requires { Room (length pattern.now) (length low.old) (length high.old) (length witness_i.old) (length witness_j.old) }
    ensures { TablesWritten pattern.now low.old high.old witness_i.old witness_j.old low.new high.new witness_i.new witness_j.new }
{
    write_neighbours(pattern, low, high);
    write_witnesses(pattern, low, high, witness_i, witness_j);
}

// Prepares a pattern for searches: its tables are written, or it is refused and nothing is. Callers lend four slices: a struct of four
// `&mut` tables would be built by each of them for this one call, since a search takes the same tables as `&`.
pub fn prepare(
    pattern: &[i32],
    low: &mut [u16],
    high: &mut [u16],
    witness_i: &mut [u16],
    witness_j: &mut [u16],
) -> Result<(), Refusal>
    ensures { PreparePromise pattern.now low.old high.old witness_i.old witness_j.old result low.new high.new witness_i.new witness_j.new }
{
    sizes::for_tables(
        pattern,
        low.len(),
        high.len(),
        witness_i.len(),
        witness_j.len(),
    )?;
    write_tables(pattern, low, high, witness_i, witness_j);
    Ok(())
}

// 1 to 3 where neighbours alone are made: the number of samples, and the lengths of the two tables. `sizes::short_tables` compares four
// lengths of its own crate; a public function for these two would have this one caller.
fn check_two(m: usize, low: usize, high: usize) -> Result<(), Refusal>
    ensures { result ≡ answer_by (neighbours_alone m low high) tt }
{
    for_pattern(m)?;
    if low < m {
        return Err(Refusal::ShortTable(Table::Low));
    }
    if high < m {
        return Err(Refusal::ShortTable(Table::High));
    }
    Ok(())
}

// Writes the neighbour tables alone, of samples of any kind, or refuses and writes nothing: 1, 2, and 3 on these two tables. No sample is
// taken for a lost stitch. Two tables and no struct: the promise names each, and `prepare` has four.
pub fn prepare_neighbours<T: Sample>(
    pattern: &[T],
    low: &mut [u16],
    high: &mut [u16],
) -> Result<(), Refusal>
    ensures { NeighboursMade (map T.value pattern.now) low.old high.old result low.new high.new }
{
    check_two(pattern.len(), low.len(), high.len())?;
    write_neighbours(pattern, low, high);
    Ok(())
}
