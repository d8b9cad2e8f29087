// A search for a C host, in three sizes of local arrays, since every array is cleared first: a small call does not pay for large ones.
//
// Follows docs/RULES.md, "The C entry points", "What is written" and "Refusals". The pattern's length is checked before it is converted,
// its samples and all other lengths before the trace is, and the tables before anything is written, so a refused call has written no byte.
// An accepted one takes what `search::search` does and a turn for each sample and entry. Stack: 12 KB for the pattern and its tables, and
// for the trace and the two lists 3 KB for up to 256 samples, 24 KB for up to 2,048, and 768 KB above.

ghost use Rattle.std.specs.Prelude.{◌/◌, ◌≤◌, length};
ghost use Rattle.order.specs.Sizes.{trace_limit};
ghost use Rattle.words.specs.Bytes.{samples_in};
ghost use Rattle.host_calls.specs.HostPromises.{HostSearch};
ghost use Rattle.host_calls.specs.Inside.{Fits, SameBuffers};

use crate::lent::{Buffers, Tables};
use crate::reading::all_samples;
use host_answers::{put_answer, result_of};
use order::{PATTERN_LIMIT, TRACE_LIMIT};

// The longest traces of the two kinds of small calls, in samples.
const BRIEF: usize = 256;

const SMALL: usize = 2048;

// Searches in arrays of N samples, and so a trace of no more. Out of line, so that no call has larger arrays in its frame than its own.
#[inline(never)]
fn search_within<const N: usize>(
    pattern: &[i32],
    tables: Tables,
    trace: &[u8],
    buffers: &mut Buffers,
    windows: usize,
) -> u64
    requires size { N ≤ trace_limit }
    requires trace_len_bound { length trace.now / 4 ≤ N }
    requires fits { Fits pattern.now (length tables.low.now) (length tables.high.now) (length tables.witness_i.now) (length tables.witness_j.now) (length trace.now) (length buffers.old.survivors.now) (length buffers.old.positions.now) windows }
    ensures same { SameBuffers buffers.old buffers.new }
    ensures promise { HostSearch pattern.now tables.entry.low.now tables.entry.high.now tables.entry.witness_i.now tables.entry.witness_j.now trace.now buffers.old.survivors.now buffers.old.positions.now buffers.old.counts.now result buffers.new.survivors.now buffers.new.positions.now buffers.new.counts.now }
{
    let n = trace.len() / 4;
    // the arrays as slices, since no part of an array of N is lent
    let mut samples = [0i32; N];
    let samples = &mut samples[..];
    all_samples(trace, samples);
    let mut kept = [0u32; N];
    let kept = &mut kept[..];
    let mut listed = [0u32; N];
    let listed = &mut listed[..];
    let answer = tables.search(pattern, &samples[0..n], kept, listed);
    put_answer(
        answer,
        &kept[0..windows],
        &listed[0..windows],
        buffers.survivors,
        buffers.positions,
        buffers.counts,
    )
}

// Searches by the pattern's samples: in arrays of the size that the trace takes, or, if LARGE, in the large ones for any trace. The choice
// is a constant and no closure, whose contract could not say what it wrote into the three buffers that it lends on.
fn search_samples<const LARGE: bool>(
    pattern: &[i32],
    tables: Tables,
    trace: &[u8],
    buffers: &mut Buffers,
) -> u64
    ensures same { SameBuffers buffers.old buffers.new }
    ensures promise { HostSearch pattern.now tables.entry.low.now tables.entry.high.now tables.entry.witness_i.now tables.entry.witness_j.now trace.now buffers.old.survivors.now buffers.old.positions.now buffers.old.counts.now result buffers.new.survivors.now buffers.new.positions.now buffers.new.counts.now }
{
    let n = trace.len() / 4;
    match sizes::for_search(
        pattern,
        tables.low.len() / 2,
        tables.high.len() / 2,
        tables.witness_i.len() / 2,
        tables.witness_j.len() / 2,
        n,
        buffers.survivors.len() / 4,
        buffers.positions.len() / 4,
    ) {
        Err(why) => result_of(why),
        Ok(windows) => {
            if LARGE | (SMALL < n) {
                return search_within::<TRACE_LIMIT>(pattern, tables, trace, buffers, windows);
            }
            if BRIEF < n {
                return search_within::<SMALL>(pattern, tables, trace, buffers, windows);
            }
            search_within::<BRIEF>(pattern, tables, trace, buffers, windows)
        }
    }
}

// The same by the pattern's bytes.
#[tactic(auto, using(crate::proofs::PrepareLaws::pattern_short))]
fn search_bytes<const LARGE: bool>(
    pattern: &[u8],
    tables: Tables,
    trace: &[u8],
    buffers: &mut Buffers,
) -> u64
    ensures same { SameBuffers buffers.old buffers.new }
    ensures promise { HostSearch (samples_in pattern.now) tables.entry.low.now tables.entry.high.now tables.entry.witness_i.now tables.entry.witness_j.now trace.now buffers.old.survivors.now buffers.old.positions.now buffers.old.counts.now result buffers.new.survivors.now buffers.new.positions.now buffers.new.counts.now }
{
    let m = pattern.len() / 4;
    match sizes::for_pattern(m) {
        Err(why) => result_of(why),
        Ok(()) => {
            let mut samples = [0i32; PATTERN_LIMIT];
            all_samples(pattern, &mut samples);
            search_samples::<LARGE>(&samples[0..m], tables, trace, buffers)
        }
    }
}

// Searches as for a trace of any length. This and the next are the exported `tension_search_large` and `tension_search`, and have their
// parameters.
pub fn search_large(
    pattern: &[u8],
    low: &[u8],
    high: &[u8],
    witness_i: &[u8],
    witness_j: &[u8],
    trace: &[u8],
    survivors: &mut [u8],
    positions: &mut [u8],
    counts: &mut [u8],
) -> u64
    ensures { HostSearch (samples_in pattern.now) low.now high.now witness_i.now witness_j.now trace.now survivors.old positions.old counts.old result survivors.new positions.new counts.new }
{
    let tables = Tables {
        low,
        high,
        witness_i,
        witness_j,
    };
    let mut buffers = Buffers {
        survivors,
        positions,
        counts,
    };
    search_bytes::<true>(pattern, tables, trace, &mut buffers)
}

// Searches in arrays of the size that the trace takes.
pub fn search(
    pattern: &[u8],
    low: &[u8],
    high: &[u8],
    witness_i: &[u8],
    witness_j: &[u8],
    trace: &[u8],
    survivors: &mut [u8],
    positions: &mut [u8],
    counts: &mut [u8],
) -> u64
    ensures { HostSearch (samples_in pattern.now) low.now high.now witness_i.now witness_j.now trace.now survivors.old positions.old counts.old result survivors.new positions.new counts.new }
{
    let tables = Tables {
        low,
        high,
        witness_i,
        witness_j,
    };
    let mut buffers = Buffers {
        survivors,
        positions,
        counts,
    };
    search_bytes::<false>(pattern, tables, trace, &mut buffers)
}
