// The program `bench`: it is given two recordings on standard input, the pattern's first, and writes the report of a search for the one
// in the other.
//
// Follows docs/RULES.md, "The program". Input is read to its end, or one byte past the longest that is accepted, so that a longer one
// is seen to be too long; short reads are gone on with, and a read that fails counts as the end. A write that fails ends the program
// with an error. Every byte of the text is proved in the crate `report`; what the system reads and writes is assumed. Takes what a
// report takes, and 40 KB of stack.

#![tactic(auto)]

ghost use Rattle.std.specs.Prelude.{◌≤◌, length};

use order::INPUT_LIMIT;
use report::{TEXT_ROOM, report};
use std::io;
use std::io::Read;

// One byte more than is accepted.
const INPUT_ROOM: usize = INPUT_LIMIT + 1;

// Reads until the buffer is full, the input ends or a read fails, and answers how many bytes it put at the buffer's start. A loop of
// `read`, since of the library's methods `read_exact` doesn't tell how many bytes there were before the end, and `read_to_end` needs a
// heap.
fn read_full<R: Read>(input: &mut R, buffer: &mut [u8]) -> usize
    ensures { result ≤ length buffer.new }
{
    let mut length = 0;
    while length < buffer.len() {
        match input.read(&mut buffer[length..]) {
            Ok(0) | Err(_) => break,
            Ok(n) => length += n,
        }
    }
    length
}

fn main(rt: HostRuntime) -> io::Result<()> {
    let mut input = [0u8; INPUT_ROOM];
    let length = read_full(&mut rt.stdin(), &mut input);
    let mut text = [0u8; TEXT_ROOM];
    // It is never too short: TEXT_ROOM bytes have room for every text.
    let Ok(end) = report(&input[0..length], &mut text) else {
        return Ok(());
    };
    rt.write_all(&text[0..end])
}
