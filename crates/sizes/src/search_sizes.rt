// What a search is handed: its pattern, and the lengths of the tables, of the trace and of its two buffers. For the search itself, and for
// a caller that converts its trace first and wants to know how many windows there will be.
//
// Follows docs/RULES.md, "Sizes" and "Refusals", numbers 1, 2, 21 and 3 to 6, tried in this order. One look at the pattern, and a handful
// of comparisons.

ghost use Rattle.std.specs.Prelude.{◌≡◌, ◌≤◌};
ghost use Rattle.order.specs.Sizes.{windows_of, trace_limit};
ghost use Rattle.order.specs.Refusals.{accepted, room_verdict};
ghost use Rattle.order.specs.Answers.{answer_by};
ghost use Rattle.sizes.specs.Lengths.{FittingPromise};

use crate::table_sizes::for_tables;
use order::{Refusal, TRACE_LIMIT};

// N: how many windows of m samples a trace of n has. `tried` (frame_sizes) is the same sum: one for both would be public, and take any two
// numbers, of which m = 0 with the greatest n has no answer.
#[tactic(auto, using(order::proofs::Lists::windows_of_as))]
fn count_windows(m: usize, n: usize) -> usize
    requires { n ≤ trace_limit }
    ensures { result ≡ windows_of m n }
{
    if m <= n {
        return n - m + 1;
    }
    0
}

// 4 to 6: the trace's length, and room in the two buffers of a search, for a pattern of m samples.
pub fn for_room(m: usize, n: usize, survivors: usize, positions: usize) -> Result<usize, Refusal>
    ensures { result ≡ answer_by (room_verdict m n survivors positions accepted) (windows_of m n) }
{
    if TRACE_LIMIT < n {
        return Err(Refusal::LongTrace(n));
    }
    let windows = count_windows(m, n);
    if survivors < windows {
        return Err(Refusal::ShortSurvivors(windows));
    }
    if positions < windows {
        return Err(Refusal::ShortPositions(windows));
    }
    Ok(windows)
}

// A pattern, and the lengths of its tables, of a trace and of the buffers of a search, in entries. Numbers and no slices, since a C host's
// bytes are looked at before any list of entries is made; and no struct, which each caller would make for this one call.
pub fn for_search(
    pattern: &[i32],
    low: usize,
    high: usize,
    witness_i: usize,
    witness_j: usize,
    n: usize,
    survivors: usize,
    positions: usize,
) -> Result<usize, Refusal>
    ensures { FittingPromise pattern.now low high witness_i witness_j n survivors positions result }
{
    for_tables(pattern, low, high, witness_i, witness_j)?;
    for_room(pattern.len(), n, survivors, positions)
}
