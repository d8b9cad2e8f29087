// The witness tables: for each offset the first place at which the pattern, laid over itself that far on, fails its own
// tests, and the neighbour that failed.
//
// Follows docs/RULES.md, "Witness", and Jargalsaikhan 2022, Lemma 3.22: of the stretches known to stand in the order of the
// pattern's start the one that reaches furthest is kept, and an offset inside it has the witness that was found that far from
// the stretch's start, unless the stretch ends first. So no place is tested twice after a pass, and both tables take 2 m
// tests at most. Callers hand over the pattern's own neighbour tables.

ghost use Rattle.std.specs.Prelude.{◌≡◌, ◌+◌, ◌≤◌, ◌<◌, length};
ghost use Rattle.order.specs.Sizes.{entry, pattern_limit};
ghost use Rattle.order.specs.Witnesses.{witness_j_of, witness_i_table, witness_j_table};
ghost use Rattle.order.specs.Written.{over};
ghost use Rattle.tables.specs.Inside.Asked.{OwnNeighbours, OwnWitness, OwnBelow, KnownBelow, Stretched};

use order::{NONE, Offset, Place, Tested, test_place};

// A pattern and its own neighbour tables.
#[derive(Clone, Copy)]
struct Own<'a> {
    pattern: &'a [i32],
    low: &'a [u16],
    high: &'a [u16],
    ghost neighbours: { OwnNeighbours pattern.now low.now high.now },
}

// The entries of one offset: the neighbour that failed and the place that failed first, or none twice.
#[derive(Clone, Copy)]
struct Witness {
    i: u16,
    j: u16,
}

// The entries of an offset at which the tests below place `from` are known to pass.
fn witness_from(own: Own, offset: Offset, from: Place) -> Witness
    requires { KnownBelow own.pattern.now offset.0 from.0 }
    ensures { OwnWitness own.entry.pattern.now offset.0 result.i result.j }
{
    let a = offset.0;
    let rest = &own.pattern[a..];
    for j in from.0..rest.len() {
        match test_place(own.low[j], own.high[j], rest, Place(j)) {
            Tested::Passed(_) => {}
            Tested::Failed(_, i) => {
                return Witness {
                    i: i.0 as u16,
                    j: j as u16,
                };
            }
        }
    }
    Witness { i: NONE, j: NONE }
}

// A stretch of the pattern, from its start up to its end, that stands in the order of the pattern's first places.
#[derive(Clone, Copy)]
struct Stretch {
    start: usize,
    end: usize,
}

// The entries of an offset. Inside the stretch the tests come out as they did that far from its start, up to its end. The two witness tables
// come side by side, as they are written: they are lent here between two stores.
fn witness_at(
    own: Own,
    witness_i: &[u16],
    witness_j: &[u16],
    offset: Offset,
    known: Stretch,
) -> Witness
    requires earlier { OwnBelow own.pattern.now witness_i.now witness_j.now offset.0 }
    requires stretch { Stretched own.pattern.now offset.0 known.start known.end }
    ensures { OwnWitness own.entry.pattern.now offset.0 result.i result.j }
{
    let a = offset.0;
    let start = known.start;
    let end = known.end;
    if end <= a {
        return witness_from(own, offset, Place(0));
    }
    let from_start = a - start;
    let inside = end - a;
    let i = witness_i[from_start];
    let j = witness_j[from_start];
    if usize::from(j) < inside {
        return Witness { i, j };
    }
    witness_from(own, offset, Place(inside))
}

// The stretch that reaches further: the one known before, or the one from an offset up to its first failing place.
fn further(pattern: &[i32], offset: Offset, failing: u16, known: Stretch) -> Stretch
    requires stretch { Stretched pattern.now offset.0 known.start known.end }
    requires inside { (offset.0 < length pattern.now) × (length pattern.now ≤ pattern_limit) × (failing ≡ entry (witness_j_of pattern.now offset.0)) }
    ensures { Stretched pattern.now (offset.0 + 1) result.start result.end }
{
    let a = offset.0;
    if failing == NONE {
        return Stretch {
            start: a,
            end: pattern.len(),
        };
    }
    let reach = a + usize::from(failing);
    let end = known.end;
    if end < reach {
        return Stretch {
            start: a,
            end: reach,
        };
    }
    known
}

// Writes the witnesses of all offsets. The loop counts: each turn reads both tables below the entries that it writes, so none can lend its
// entries out one by one.
pub(crate) fn write_witnesses(
    pattern: &[i32],
    low: &[u16],
    high: &[u16],
    witness_i: &mut [u16],
    witness_j: &mut [u16],
)
    requires neighbours { OwnNeighbours pattern.now low.now high.now }
    requires room { (0 < length pattern.now) × (length pattern.now ≤ length witness_i.old) × (length pattern.now ≤ length witness_j.old) }
    ensures { (witness_i.new ≡ over (witness_i_table pattern.now) witness_i.old) × (witness_j.new ≡ over (witness_j_table pattern.now) witness_j.old) }
{
    let mut known = Stretch { start: 1, end: 1 };
    witness_i[0] = NONE;
    witness_j[0] = NONE;
    let own = Own { pattern, low, high };
    for a in 1..pattern.len() {
        let w = witness_at(own, witness_i, witness_j, Offset(a), known);
        witness_i[a] = w.i;
        witness_j[a] = w.j;
        known = further(pattern, Offset(a), w.j, known);
    }
}
