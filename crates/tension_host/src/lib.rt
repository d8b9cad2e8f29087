// The entry points for a C host: preparation and search on little-endian bytes, reading and writing of recordings, and the search of a
// camera's frame, exported under C's names.
//
// Follows docs/RULES.md, "The C entry points". Each is one call of the crate `host_calls`, `host_recordings` or `host_frames`, which says
// what it costs. The parameters are those that host/tension.h declares, each buffer a pointer with its length, so no struct stands for
// several.

#![tactic(auto)]

ghost use Rattle.words.specs.Bytes.{samples_in};
ghost use Rattle.host_calls.specs.HostPromises.{HostPrepare, HostSearch};
ghost use Rattle.host_recordings.specs.Promises.{HostRead, HostWrite};
ghost use Rattle.host_frames.specs.Promises.{HostFrame};

// Prepares a pattern of 4-byte samples: its tables of 2-byte entries are written, or nothing is.
#[unsafe(no_mangle)]
pub extern "C" fn tension_prepare(
    pattern: &[u8],
    low: &mut [u8],
    high: &mut [u8],
    witness_i: &mut [u8],
    witness_j: &mut [u8],
) -> u64
    ensures { HostPrepare (samples_in pattern.now) low.old high.old witness_i.old witness_j.old result low.new high.new witness_i.new witness_j.new }
{
    host_calls::prepare(pattern, low, high, witness_i, witness_j)
}

// Searches a trace of 4-byte samples: survivors, positions and counts of 4 bytes each are written, or nothing is.
#[unsafe(no_mangle)]
pub extern "C" fn tension_search(
    pattern: &[u8],
    low: &[u8],
    high: &[u8],
    witness_i: &[u8],
    witness_j: &[u8],
    trace: &[u8],
    survivors: &mut [u8],
    positions: &mut [u8],
    counts: &mut [u8],
) -> u64
    ensures { HostSearch (samples_in pattern.now) low.now high.now witness_i.now witness_j.now trace.now survivors.old positions.old counts.old result survivors.new positions.new counts.new }
{
    host_calls::search(
        pattern, low, high, witness_i, witness_j, trace, survivors, positions, counts,
    )
}

// The search in the large arrays, whatever the trace's length. A host has no need of it, and its name stays exported.
#[unsafe(no_mangle)]
pub extern "C" fn tension_search_large(
    pattern: &[u8],
    low: &[u8],
    high: &[u8],
    witness_i: &[u8],
    witness_j: &[u8],
    trace: &[u8],
    survivors: &mut [u8],
    positions: &mut [u8],
    counts: &mut [u8],
) -> u64
    ensures { HostSearch (samples_in pattern.now) low.now high.now witness_i.now witness_j.now trace.now survivors.old positions.old counts.old result survivors.new positions.new counts.new }
{
    host_calls::search_large(
        pattern, low, high, witness_i, witness_j, trace, survivors, positions, counts,
    )
}

// Reads the recording that ends with these bytes: its samples, their number and the byte of the first are stored, or nothing is.
#[unsafe(no_mangle)]
pub extern "C" fn tension_read(
    bytes: &[u8],
    samples: &mut [i32],
    count: &mut usize,
    first: &mut usize,
) -> u64
    ensures { HostRead bytes.now samples.old count.old first.old result samples.new count.new first.new }
{
    host_recordings::read(bytes, samples, count, first)
}

// Writes samples behind the first k bytes of a buffer: samples, trailer and the new length are stored, or nothing is.
#[unsafe(no_mangle)]
pub extern "C" fn tension_write(
    buffer: &mut [u8],
    k: usize,
    samples: &[i32],
    length: &mut usize,
) -> u64
    ensures { HostWrite buffer.old k samples.now length.old result buffer.new length.new }
{
    host_recordings::write(buffer, k, samples, length)
}

// Seeks a patch of h rows and k columns, packed, in a frame whose rows start a pitch apart: the places that match are listed, and their
// number and how many were found are stored, or nothing is.
#[unsafe(no_mangle)]
pub extern "C" fn tension_frame(
    samples: &[u16],
    height: usize,
    width: usize,
    pitch: usize,
    patch: &[u16],
    h: usize,
    k: usize,
    positions: &mut [u32],
    places: &mut usize,
    found: &mut usize,
) -> u64
    ensures { HostFrame samples.now height width pitch patch.now h k positions.old places.old found.old result positions.new places.new found.new }
{
    host_frames::search(
        samples, height, width, pitch, patch, h, k, positions, places, found,
    )
}
