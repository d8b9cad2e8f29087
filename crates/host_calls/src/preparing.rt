// Preparation for a C host.
//
// Follows docs/RULES.md, "The C entry points", "What is written" and "Refusals", numbers 1, 2, 21 and 3. The pattern's length is checked
// before it is converted, and all else before anything is written, so a refused call has written no byte. An accepted one takes what
// `tables::prepare` does, and 12 KB of stack for the samples and the tables.

ghost use Rattle.std.specs.Prelude.{◌≡◌, ◌/◌, ◌≤◌, length};
ghost use Rattle.order.specs.Sizes.{none, pattern_limit};
ghost use Rattle.order.specs.Lost.{first_lost_lem};
ghost use Rattle.sizes.specs.Lengths.{Room};
ghost use Rattle.words.specs.Bytes.{samples_in};
ghost use Rattle.host_calls.specs.HostPromises.{HostPrepare};
ghost use Rattle.host_calls.specs.Inside.{TablesPut, SameTables};

use crate::lent::TableBuffers;
use crate::reading::all_samples;
use host_answers::{ACCEPTED, result_of};
use order::PATTERN_LIMIT;
use words::put_entries;

// The tables of a pattern that was found to fit, over the front of the host's. Four arrays, since `prepare` takes four slices.
fn put_tables(pattern: &[i32], tables: &mut TableBuffers)
    requires { (first_lost_lem pattern.now ≡ none) × Room (length pattern.now) (length tables.old.low.now / 2) (length tables.old.high.now / 2) (length tables.old.witness_i.now / 2) (length tables.old.witness_j.now / 2) }
    ensures same { SameTables tables.old tables.new }
    ensures put { TablesPut pattern.now tables.old.low.now tables.old.high.now tables.old.witness_i.now tables.old.witness_j.now tables.new.low.now tables.new.high.now tables.new.witness_i.now tables.new.witness_j.now }
{
    let m = pattern.len();
    let mut lows = [0u16; 1024];
    let mut highs = [0u16; 1024];
    let mut is = [0u16; 1024];
    let mut js = [0u16; 1024];
    let _ = tables::prepare(pattern, &mut lows, &mut highs, &mut is, &mut js);
    put_entries(&lows[0..m], tables.low);
    put_entries(&highs[0..m], tables.high);
    put_entries(&is[0..m], tables.witness_i);
    put_entries(&js[0..m], tables.witness_j);
}

// Prepares a pattern by its samples: the tables are written, or nothing is.
fn prepare_samples(pattern: &[i32], tables: &mut TableBuffers) -> u64
    ensures same { SameTables tables.old tables.new }
    ensures promise { HostPrepare pattern.now tables.old.low.now tables.old.high.now tables.old.witness_i.now tables.old.witness_j.now result tables.new.low.now tables.new.high.now tables.new.witness_i.now tables.new.witness_j.now }
{
    match sizes::for_tables(
        pattern,
        tables.low.len() / 2,
        tables.high.len() / 2,
        tables.witness_i.len() / 2,
        tables.witness_j.len() / 2,
    ) {
        Err(why) => result_of(why),
        Ok(()) => {
            put_tables(pattern, tables);
            ACCEPTED
        }
    }
}

// Prepares a pattern of 4-byte samples: its tables of 2-byte entries are written, or nothing is. The four are parameters, as the exported
// `tension_prepare` is handed them.
#[tactic(auto, using(crate::proofs::PrepareLaws::pattern_short))]
pub fn prepare(
    pattern: &[u8],
    low: &mut [u8],
    high: &mut [u8],
    witness_i: &mut [u8],
    witness_j: &mut [u8],
) -> u64
    ensures { HostPrepare (samples_in pattern.now) low.old high.old witness_i.old witness_j.old result low.new high.new witness_i.new witness_j.new }
{
    let m = pattern.len() / 4;
    match sizes::for_pattern(m) {
        Err(why) => result_of(why),
        Ok(()) => {
            let mut samples = [0i32; PATTERN_LIMIT];
            all_samples(pattern, &mut samples);
            let mut tables = TableBuffers {
                low,
                high,
                witness_i,
                witness_j,
            };
            prepare_samples(&samples[0..m], &mut tables)
        }
    }
}
