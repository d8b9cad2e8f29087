// Replays recorded calls: reads a stream of cases from standard input, makes each call of the library, and writes the answer
// and every buffer after it to standard output. The cases and what they must come to are made by reference/, which shares
// nothing with the library; reference/README.md has the stream's format.
//
// Buffers hold a guard value before each call. They are made before the first read of a case: a function clears the room of all its arrays
// as it starts, and one that is made after a read is then cleared twice. What a call must come to is docs/RULES.md's; a case takes what
// its call takes, the clearing of its buffers, and a read or a write for each number. The buffers are as large as a case may ask for, 1 MB
// of stack.
// The stream is replayed to its end also where a write fails; the program then ends with that error.

#![tactic(auto)]

mod input;
mod output;

use input::{
    lend, read_byte, read_bytes, read_entries, read_length, read_long, read_samples, read_short,
};
use order::{Counts, Refusal, Window};
use output::{GUARD_SAMPLE, GUARD8, GUARD16, GUARD32, Output, refusal, show};
use recording::Reading;
use report::ShortText;
use std::io;
use std::io::Stdin;

// The most that a case may ask for: entries of a table, samples of a recording, samples of a trace and windows, bytes of a recording,
// bytes of a text, and cases.
const TABLE: usize = 1100;

const SAMPLES: usize = 2100;

const TRACE: usize = 65600;

const BYTES: usize = 17000;

const TEXT: usize = 40000;

const CASES: usize = 1000000;

// The four tables of a pattern, each as long as a case may ask for.
#[derive(Clone, Copy)]
struct Tables {
    low: [u16; TABLE],
    high: [u16; TABLE],
    witness_i: [u16; TABLE],
    witness_j: [u16; TABLE],
}

impl Tables {
    // With one value in every entry.
    fn filled(value: u16) -> Tables {
        Tables {
            low: [value; TABLE],
            high: [value; TABLE],
            witness_i: [value; TABLE],
            witness_j: [value; TABLE],
        }
    }

    // Changes one entry of the table that is meant, if there are such a table and such an entry.
    fn damage(&mut self, input: &mut Stdin) {
        let table = read_byte(input);
        let entry = read_length(input);
        let value = read_short(input);
        // The table's number is looked at here alone: a `Table` would be made of it by this same match, and be taken apart by one more.
        let entries = match table {
            1 => &mut self.low,
            2 => &mut self.high,
            3 => &mut self.witness_i,
            4 => &mut self.witness_j,
            _ => return,
        };
        if let Some(x) = entries.get_mut(entry) {
            *x = value;
        }
    }
}

// ---- preparation

// How a call ended. Four of these (`show_prepared`, `show_searched`, `show_agreement`, `show_reading`): one would take the word and a
// closure for what `Ok` prints, which is all they have.
fn show_prepared(rt: &impl Print, answer: Result<(), Refusal>) -> io::Result<()> {
    print!(rt; "prepare")?;
    match answer {
        Ok(()) => print!(rt; " 0 0\n"),
        Err(why) => refusal(rt, why),
    }
}

// Prepares a pattern into tables of the lengths that follow.
fn replay_prepare(input: &mut Stdin, rt: &impl Print) -> io::Result<()> {
    let mut samples = [0i32; TABLE];
    let mut own = Tables::filled(GUARD16);
    let pattern = read_samples(input, &mut samples);
    let low = lend(&mut own.low, read_length(input));
    let high = lend(&mut own.high, read_length(input));
    let witness_i = lend(&mut own.witness_i, read_length(input));
    let witness_j = lend(&mut own.witness_j, read_length(input));
    show_prepared(
        rt,
        tables::prepare(pattern, low, high, witness_i, witness_j),
    )?;
    show(rt, "low", low)?;
    show(rt, "high", high)?;
    show(rt, "wi", witness_i)?;
    show(rt, "wj", witness_j)
}

// ---- search

fn show_searched(rt: &impl Print, answer: Result<Counts, Refusal>) -> io::Result<()> {
    print!(rt; "search")?;
    match answer {
        Ok(c) => println!(rt;
            " 0 0 {} {} {} {} {} {}",
            c.windows, c.duels, c.survivors, c.sweep, c.found, c.struck
        ),
        Err(why) => refusal(rt, why),
    }
}

// Searches the trace that follows by a pattern's tables, with some entries damaged, at the lengths that come before the damages, and into
// buffers of the lengths after the trace.
fn replay_search(input: &mut Stdin, rt: &impl Print) -> io::Result<()> {
    let mut samples = [0i32; TABLE];
    let mut own = Tables::filled(0);
    let mut trace = [0i32; TRACE];
    let mut survivors = [GUARD32; TRACE];
    let mut positions = [GUARD32; TRACE];
    let pattern = read_samples(input, &mut samples);
    // A pattern that is refused leaves the tables as they are.
    let _ = tables::prepare(
        pattern,
        &mut own.low,
        &mut own.high,
        &mut own.witness_i,
        &mut own.witness_j,
    );
    read_byte(input);
    let a = read_length(input);
    let b = read_length(input);
    let c = read_length(input);
    let d = read_length(input);
    for _ in 0..read_byte(input) {
        own.damage(input);
    }
    let trace = read_samples(input, &mut trace);
    let survivors = lend(&mut survivors, read_long(input));
    let positions = lend(&mut positions, read_long(input));
    let answer = search::search(
        pattern,
        lend(&mut own.low, a),
        lend(&mut own.high, b),
        lend(&mut own.witness_i, c),
        lend(&mut own.witness_j, d),
        trace,
        survivors,
        positions,
    );
    show_searched(rt, answer)?;
    show(rt, "survivors", survivors)?;
    show(rt, "positions", positions)
}

// ---- the call on two windows

fn show_agreement(rt: &impl Print, answer: Result<bool, Refusal>) -> io::Result<()> {
    print!(rt; "agree")?;
    match answer {
        Ok(true) => print!(rt; " 0 1\n"),
        Ok(false) => print!(rt; " 0 0\n"),
        Err(why) => refusal(rt, why),
    }
}

fn replay_agree(input: &mut Stdin, rt: &impl Print) -> io::Result<()> {
    let mut is = [0u16; TABLE];
    let mut js = [0u16; TABLE];
    let m = read_long(input);
    let witness_i = read_entries(input, &mut is);
    let witness_j = read_entries(input, &mut js);
    let x = Window(read_long(input));
    let y = Window(read_long(input));
    show_agreement(rt, agreement::agree(m, witness_i, witness_j, x, y))
}

// ---- reading

fn show_reading(rt: &impl Print, answer: Result<Reading, Refusal>) -> io::Result<()> {
    print!(rt; "read")?;
    match answer {
        Ok(Reading { count, first }) => print!(rt; " 0 0 {count} {first}\n"),
        Err(why) => refusal(rt, why),
    }
}

fn replay_read(input: &mut Stdin, rt: &impl Print) -> io::Result<()> {
    let mut bytes = [0u8; BYTES];
    let mut samples = [GUARD_SAMPLE; SAMPLES];
    let bytes = read_bytes(input, &mut bytes);
    let samples = lend(&mut samples, read_long(input));
    show_reading(rt, recording::read(bytes, samples))?;
    show(rt, "samples", samples)
}

// ---- reports

// Tells of a byte that should have stayed and did not, by a word that the reference never writes.
fn show_overwritten(rt: &impl Print, kept: &[u8]) -> io::Result<()> {
    if kept.iter().any(|byte| *byte != GUARD8) {
        return print!(rt; "overwritten\n");
    }
    Ok(())
}

// A report's length, and then the text, or that the buffer was kept.
fn show_reported(rt: &impl Print, answer: Result<usize, ShortText>, text: &[u8]) -> io::Result<()> {
    match answer {
        Ok(length) => {
            print!(rt; "report {length}\n")?;
            let (written, rest) = text.split_at(length.min(text.len()));
            rt.write_all(written)?;
            show_overwritten(rt, rest)
        }
        Err(ShortText(length)) => {
            print!(rt; "report {length}\nkept\n")?;
            show_overwritten(rt, text)
        }
    }
}

// Only the two lines that read the bytes are `replay_read`'s: the buffer has another type, length and guard, and the call is another.
fn replay_report(input: &mut Stdin, rt: &impl Print) -> io::Result<()> {
    let mut bytes = [0u8; BYTES];
    let mut text = [GUARD8; TEXT];
    let bytes = read_bytes(input, &mut bytes);
    let text = lend(&mut text, read_long(input));
    show_reported(rt, report::report(bytes, text), text)
}

// ---- the stream

// Replays one case; answers whether it was shown, and none at the stream's end.
fn replay_one(input: &mut Stdin, out: &impl Print) -> Option<io::Result<()>> {
    // The kind is looked at here alone: an enum would be made of the byte by this same match, and be taken apart by one more.
    match read_byte(input) {
        1 => Some(replay_prepare(input, out)),
        2 => Some(replay_search(input, out)),
        3 => Some(replay_agree(input, out)),
        4 => Some(replay_read(input, out)),
        5 => Some(replay_report(input, out)),
        // Byte 0 ends the stream.
        _ => None,
    }
}

fn main(rt: HostRuntime) -> io::Result<()> {
    let mut input = rt.stdin();
    let mut ended = Ok(());
    for _ in 0..CASES {
        let out = Output::after(&rt, &ended);
        let Some(shown) = replay_one(&mut input, &out) else {
            break;
        };
        ended = ended.and(shown);
    }
    ended
}
