// Recordings for a C host: reading and writing, with each answer as one number, and what an accepted call tells in numbers that the
// host lends.
//
// Follows docs/RULES.md, "Recordings" and "The C entry points", Result and Recordings. Each is one call of the crate `recording`, on the
// host's own arrays: nothing is converted and no array is kept. The exported functions are in the crate `tension_host`.

#![tactic(auto)]

ghost use Rattle.host_recordings.specs.Promises.{HostRead, HostWrite};

use host_answers::{ACCEPTED, result_of};

// Reads the recording that ends with these bytes: its samples, their number and the byte of the first are stored, or nothing is.
pub fn read(bytes: &[u8], samples: &mut [i32], count: &mut usize, first: &mut usize) -> u64
    ensures { HostRead bytes.now samples.old count.old first.old result samples.new count.new first.new }
{
    match recording::read(bytes, samples) {
        Err(why) => result_of(why),
        Ok(told) => {
            *count = told.count;
            *first = told.first;
            ACCEPTED
        }
    }
}

// Writes samples behind the first k bytes of a buffer: samples, trailer and the new length are stored, or nothing is. The parameters are
// those of the exported `tension_write`, one for one: the buffer whole, since it also has room for what is written.
pub fn write(buffer: &mut [u8], k: usize, samples: &[i32], length: &mut usize) -> u64
    ensures { HostWrite buffer.old k samples.now length.old result buffer.new length.new }
{
    match recording::write(buffer, k, samples) {
        Err(why) => result_of(why),
        Ok(end) => {
            *length = end;
            ACCEPTED
        }
    }
}
