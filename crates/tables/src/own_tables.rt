// Whether the tables handed to a search are the pattern's own, and if not, which is the first that differs, and where. Claimed neighbours
// are looked at where they stand; only if they don't fit are the pattern's own written, to compare with. From neighbours that are the
// pattern's own the witness tables are made and compared, entry by entry.
//
// Follows docs/RULES.md, "Refusals", numbers 1, 2, 21 and 3, and 14 to 17. Of the pattern's own tables it costs the look at the neighbours,
// m² / 2 steps by fours, 2 m tests for the witnesses and 2 m comparisons of entries, and 4 KB of stack. Foreign neighbours cost as much of
// that look as it takes to see it, the neighbours written anew, 2 m comparisons of entries, and 4 KB; no witness is made for them.

ghost use Rattle.std.specs.Prelude.{◌≡◌, position, zip};
ghost use Rattle.order.specs.Refusals.{accepted, own_verdict};
ghost use Rattle.order.specs.Answers.{answer_by};
ghost use Rattle.tables.specs.Promises.{TablesPromise};
ghost use Rattle.tables.specs.Inside.Asked.{OwnNeighbours};
ghost use Rattle.tables.specs.Inside.Halves.{differing, spot_of, in_turn, neighbours_half, witnesses_half};

use crate::handed::Handed;
use crate::neighbours::write_neighbours;
use crate::witnesses::write_witnesses;
use order::{PATTERN_LIMIT, Refusal, Table};

// The lowest entry at which two tables differ, as far as both go.
fn first_difference(table: &[u16], own: &[u16]) -> Option<usize>
    ensures { result ≡ position differing (zip table.now own.now) }
{
    table.iter().zip(own).position(|(a, b)| *a != *b)
}

// A table that was handed over, by its name, and what preparation writes in its place.
#[derive(Clone, Copy)]
struct Compared<'a> {
    name: Table,
    handed: &'a [u16],
    own: &'a [u16],
}

// Of two tables the first that differs from the pattern's own, at the lowest entry at which it does.
fn first_foreign(first: Compared, second: Compared) -> Result<(), Refusal>
    ensures { result ≡ answer_by (in_turn first.entry.name (spot_of (position differing (zip first.entry.handed.now first.entry.own.now))) second.entry.name (spot_of (position differing (zip second.entry.handed.now second.entry.own.now))) accepted) tt }
{
    let a = first_difference(first.handed, first.own);
    let b = first_difference(second.handed, second.own);
    if let Some(k) = a {
        return Err(Refusal::ForeignEntry(first.name, k));
    }
    if let Some(k) = b {
        return Err(Refusal::ForeignEntry(second.name, k));
    }
    Ok(())
}

// 14 and 15, by the neighbours that preparation would write.
fn compare_neighbours(tables: Handed) -> Result<(), Refusal>
    ensures { result ≡ answer_by (neighbours_half tables.entry.pattern.now tables.entry.low.now tables.entry.high.now accepted) tt }
{
    let m = tables.pattern.len();
    let mut own_low = [0u16; PATTERN_LIMIT];
    let mut own_high = [0u16; PATTERN_LIMIT];
    write_neighbours(tables.pattern, &mut own_low, &mut own_high);
    let low = Compared {
        name: Table::Low,
        handed: &tables.low[..m],
        own: &own_low[..m],
    };
    let high = Compared {
        name: Table::High,
        handed: &tables.high[..m],
        own: &own_high[..m],
    };
    first_foreign(low, high)
}

// 16 and 17, by the witnesses that the pattern's own neighbours make. It stands beside `compare_neighbours`, since this writer asks for
// neighbours that are the pattern's own: one function would take its writer as a closure, with what that asks in its own clauses.
fn check_witnesses(tables: Handed) -> Result<(), Refusal>
    requires { OwnNeighbours tables.pattern.now tables.low.now tables.high.now }
    ensures { result ≡ answer_by (witnesses_half tables.entry.pattern.now tables.entry.witness_i.now tables.entry.witness_j.now accepted) tt }
{
    let m = tables.pattern.len();
    let mut own_i = [0u16; PATTERN_LIMIT];
    let mut own_j = [0u16; PATTERN_LIMIT];
    write_witnesses(
        tables.pattern,
        tables.low,
        tables.high,
        &mut own_i,
        &mut own_j,
    );
    let i = Compared {
        name: Table::WitnessI,
        handed: &tables.witness_i[..m],
        own: &own_i[..m],
    };
    let j = Compared {
        name: Table::WitnessJ,
        handed: &tables.witness_j[..m],
        own: &own_j[..m],
    };
    first_foreign(i, j)
}

// 14 to 17, table after table.
fn compare_tables(tables: Handed) -> Result<(), Refusal>
    ensures { result ≡ answer_by (own_verdict tables.entry.pattern.now tables.entry.low.now tables.entry.high.now tables.entry.witness_i.now tables.entry.witness_j.now) tt }
{
    compare_neighbours(tables)?;
    check_witnesses(tables)
}

// The same, after a look at the neighbours where they stand, since they are the pattern's own in nearly every call. Either way has a call
// of its own for the witnesses: where the two meet before that, the compiler makes a slower loop of the duels that follow.
fn check_own(tables: Handed) -> Result<(), Refusal>
    ensures { result ≡ answer_by (own_verdict tables.entry.pattern.now tables.entry.low.now tables.entry.high.now tables.entry.witness_i.now tables.entry.witness_j.now) tt }
{
    if tables.neighbours_fit() {
        return check_witnesses(tables);
    }
    compare_tables(tables)
}

// Whether a pattern and tables would do for a search: 1, 2, 21 and 3, and then 14 to 17. The tables are four slices, as callers keep them;
// `Handed` takes them up once their lengths are known to do.
pub fn check_tables(
    pattern: &[i32],
    low: &[u16],
    high: &[u16],
    witness_i: &[u16],
    witness_j: &[u16],
) -> Result<(), Refusal>
    ensures { TablesPromise pattern.now low.now high.now witness_i.now witness_j.now result }
{
    sizes::for_tables(
        pattern,
        low.len(),
        high.len(),
        witness_i.len(),
        witness_j.len(),
    )?;
    check_own(Handed {
        pattern,
        low,
        high,
        witness_i,
        witness_j,
    })
}
