// The stream's numbers and lists, read from standard input. A stream that ends early reads as zeros, and of a list that is longer than
// its buffer the rest is taken for what follows; either way the output is not what it must be.
//
// Follows reference/README.md, "The stream of cases". A read for each number.

ghost use Rattle.std.specs.Prelude.{◌≤◌, ◌<◌, length};

use std::io::{Read, Stdin};

// The next N bytes; where the input ends before them or a read fails, those that were there, and zeros.
fn next<const N: usize>(input: &mut Stdin) -> [u8; N] {
    let mut bytes = [0u8; N];
    let _ = input.read_exact(&mut bytes);
    bytes
}

pub(crate) fn read_byte(input: &mut Stdin) -> u8 {
    u8::from_le_bytes(next(input))
}

pub(crate) fn read_short(input: &mut Stdin) -> u16 {
    u16::from_le_bytes(next(input))
}

// A length or an index, of two bytes.
pub(crate) fn read_length(input: &mut Stdin) -> usize
    ensures { result < 65536 }
{
    usize::from(read_short(input))
}

// A length or a window, of four bytes.
pub(crate) fn read_long(input: &mut Stdin) -> usize
    ensures { result < 4294967296 }
{
    u32::from_le_bytes(next(input)) as usize
}

fn read_sample(input: &mut Stdin) -> i32 {
    i32::from_le_bytes(next(input))
}

// A sample of 8 bits.
fn read_small_sample(input: &mut Stdin) -> i32 {
    i32::from(i8::from_le_bytes(next(input)))
}

// The front of a buffer, so many entries of it or all that there are. The stream tells a count apart from the entries, and this makes of
// buffer and count the slice that everything else takes.
pub(crate) fn lend<T>(list: &mut [T], count: usize) -> &mut [T]
    ensures few { length result.now ≤ count }
    ensures within { length result.now ≤ length list.old }
{
    let n = count.min(list.len());
    &mut list[..n]
}

// A list of samples: a count, a width, and the samples of that many bytes; of no bytes, one sample that stands for all.
pub(crate) fn read_samples<'a>(input: &mut Stdin, samples: &'a mut [i32]) -> &'a [i32]
    ensures { length result.now ≤ length samples.old }
{
    let list = lend(samples, read_long(input));
    // The width is looked at here alone: an enum would be made of the byte by this same match, and be taken apart by one more.
    match read_byte(input) {
        0 => list.fill(read_sample(input)),
        1 => list.fill_with(|| read_small_sample(input)),
        _ => list.fill_with(|| read_sample(input)),
    }
    list
}

// A list of table entries, with their count before them.
pub(crate) fn read_entries<'a>(input: &mut Stdin, entries: &'a mut [u16]) -> &'a [u16]
    ensures { length result.now ≤ length entries.old }
{
    let list = lend(entries, read_length(input));
    list.fill_with(|| read_short(input));
    list
}

// Bytes, with their count before them.
pub(crate) fn read_bytes<'a>(input: &mut Stdin, bytes: &'a mut [u8]) -> &'a [u8]
    ensures { length result.now ≤ length bytes.old }
{
    let list = lend(bytes, read_long(input));
    let _ = input.read_exact(list);
    list
}
