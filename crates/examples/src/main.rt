// Runs the worked examples of docs/RULES.md through the library's public calls and prints what each comes to. What it must
// print, the file stdout, is written by hand from docs/RULES.md, "Examples"; the counts at the limits (k), which that page doesn't
// give, are the reference program's. Takes what the calls take, one after the other. A write that fails
// ends the program with an error. A pattern's tables are four arrays, since `prepare` and `search` take four slices.

#![tactic(auto)]

ghost use Rattle.std.specs.Prelude.{◌≤◌};

use order::{Counts, LOST, Refusal, Table};
use recording::Reading;
use std::fmt::Display;
use std::io;

// A list on a line of its own: its name, and its first entries, so many or all that there are.
fn list<T: Display>(rt: &impl Print, name: &str, entries: &[T], count: usize) -> io::Result<()> {
    print!(rt; "{name}")?;
    for entry in entries.iter().take(count) {
        print!(rt; " {entry}")?;
    }
    print!(rt; "\n")
}

fn counts(rt: &impl Print, c: Counts) -> io::Result<()> {
    println!(rt;
        " N {} D {} S {} W {} R {} struck {}",
        c.windows, c.duels, c.survivors, c.sweep, c.found, c.struck
    )
}

// At a line's end, as `refusal` of crates/replay says in other words.
fn refusal(rt: &impl Print, why: Refusal) -> io::Result<()> {
    println!(rt; " refusal {} place {}", why.number(), why.place())
}

// A search that an example makes: its letter, a pattern, a trace, and the table, if any, of which entry 3 is altered.
#[derive(Clone, Copy)]
struct Search<'a> {
    letter: &'a str,
    pattern: &'a [i32],
    trace: &'a [i32],
    altered: Option<Table>,
}

impl Search<'_> {
    // Searches, and prints the answer. Answers how many windows it kept and how many it listed.
    fn run(
        self,
        rt: &impl Print,
        survivors: &mut [u32],
        positions: &mut [u32],
    ) -> io::Result<(usize, usize)> {
        let pattern = self.pattern;
        let mut low = [0u16; 1025];
        let mut high = [0u16; 1025];
        let mut witness_i = [0u16; 1025];
        let mut witness_j = [0u16; 1025];
        // A pattern that is refused leaves the tables as they are.
        let _ = tables::prepare(pattern, &mut low, &mut high, &mut witness_i, &mut witness_j);
        match self.altered {
            Some(Table::Low) => low[3] = 1,
            Some(Table::High) => high[3] = 1,
            Some(Table::WitnessI) => witness_i[3] = 1,
            Some(Table::WitnessJ) => witness_j[3] = 1,
            None => {}
        }
        print!(rt; "{}", self.letter)?;
        match search::search(
            pattern, &low, &high, &witness_i, &witness_j, self.trace, survivors, positions,
        ) {
            Ok(c) => {
                counts(rt, c)?;
                Ok((c.survivors as usize, c.found as usize))
            }
            Err(why) => {
                refusal(rt, why)?;
                Ok((0, 0))
            }
        }
    }

    // The answer, and both lists.
    fn lists(self, rt: &impl Print) -> io::Result<()> {
        let mut survivors = [0u32; 16];
        let mut positions = [0u32; 16];
        let (kept, found) = self.run(rt, &mut survivors, &mut positions)?;
        list(rt, "  survivors", &survivors, kept)?;
        list(rt, "  listed", &positions, found)
    }

    // The answer alone.
    fn answer(self, rt: &impl Print) -> io::Result<()> {
        let mut survivors = [0u32; 65536];
        let mut positions = [0u32; 65536];
        self.run(rt, &mut survivors, &mut positions)?;
        Ok(())
    }
}

// Examples c to j and o: the answer, and both lists.
fn example(rt: &impl Print, letter: &str, pattern: &[i32], trace: &[i32]) -> io::Result<()> {
    Search {
        letter,
        pattern,
        trace,
        altered: None,
    }
    .lists(rt)
}

// Examples a and b: the four tables.
fn tables(rt: &impl Print) -> io::Result<()> {
    let mut low = [0u16; 4];
    let mut high = [0u16; 4];
    let mut witness_i = [0u16; 4];
    let mut witness_j = [0u16; 4];
    let _ = tables::prepare(
        &[4i32, 9, 6, 6],
        &mut low,
        &mut high,
        &mut witness_i,
        &mut witness_j,
    );
    list(rt, "a low", &low, 4)?;
    list(rt, "a high", &high, 4)?;
    list(rt, "b witness i", &witness_i, 4)?;
    list(rt, "b witness j", &witness_j, 4)
}

// Example k: the answer for a level pattern in a level trace.
fn level(rt: &impl Print, pattern: &[i32], trace: &[i32]) -> io::Result<()> {
    Search {
        letter: "k",
        pattern,
        trace,
        altered: None,
    }
    .answer(rt)
}

// Example l: a recording's bytes.
fn recording_example(rt: &impl Print, bytes: &[u8]) -> io::Result<()> {
    let mut samples = [0i32; 4];
    print!(rt; "l")?;
    match recording::read(bytes, &mut samples) {
        Ok(Reading { count, first }) => print!(rt; " count {count} place {first}\n"),
        Err(why) => refusal(rt, why),
    }
}

// Examples c to e: one pattern, three traces.
fn bends(rt: &impl Print) -> io::Result<()> {
    let pattern = [4i32, 9, 6, 6];
    example(rt, "c", &pattern, &[5i32, 8, 6, 6, 9, 7, 7, 2, 4, 3, 3])?;
    example(rt, "d", &pattern, &[5i32, 5, 5, 5, 5])?;
    example(rt, "e", &pattern, &[1i32, 2, 3, 4, 5])
}

// Examples f to h: a single sample, a trace that is too short, and one that almost matches.
fn few(rt: &impl Print) -> io::Result<()> {
    example(rt, "f", &[7i32], &[3i32, 3])?;
    example(rt, "g", &[4i32, 9, 6, 6], &[1i32, 2, 3])?;
    example(rt, "h", &[4i32, 9, 6, 6], &[4i32, 9, 7, 6])
}

// Examples i and j: a rising pattern, and the lowest and the highest tension there are.
fn steep(rt: &impl Print) -> io::Result<()> {
    example(rt, "i", &[1i32, 2, 3], &[1i32, 2, 3, 4, 5])?;
    example(
        rt,
        "j",
        &[-2147483647i32, 2147483647],
        &[2147483647i32, -2147483647, 0],
    )
}

// Example k: the largest sizes that are accepted, and one more.
fn limits(rt: &impl Print) -> io::Result<()> {
    let samples = [0i32; 65537];
    level(rt, &samples[..1], &samples[..65536])?;
    level(rt, &samples[..4], &samples[..65536])?;
    level(rt, &samples[..1024], &samples[..65536])?;
    level(rt, &samples[..1025], &samples[..65536])?;
    level(rt, &samples[..1024], &samples)
}

// Example l: no sample, a trailer cut short, and a product that does not fit 32 bits.
fn recordings(rt: &impl Print) -> io::Result<()> {
    recording_example(rt, &[0u8, 0, 0, 0, 0, 0, 0, 0, 75, 82, 69, 67])?;
    recording_example(rt, &[0u8, 0, 0, 0, 0, 0, 0, 75, 82, 69, 67])?;
    recording_example(rt, &[0u8, 0, 0, 0, 0, 0, 0, 64, 75, 82, 69, 67])
}

// Example m: entry 3 of a table altered.
fn foreign(rt: &impl Print, table: Table) -> io::Result<()> {
    Search {
        letter: "m",
        pattern: &[4i32, 9, 6, 6],
        trace: &[5i32, 8, 6, 6],
        altered: Some(table),
    }
    .answer(rt)
}

// Example m, table by table.
fn foreigners(rt: &impl Print) -> io::Result<()> {
    foreign(rt, Table::Low)?;
    foreign(rt, Table::High)?;
    foreign(rt, Table::WitnessI)?;
    foreign(rt, Table::WitnessJ)
}

// Example n: samples written into a buffer of which k bytes are in use, as `recording::write` takes them. All its bytes are shown after it.
fn written_into(rt: &impl Print, buffer: &mut [u8], k: usize, samples: &[i32]) -> io::Result<()> {
    print!(rt; "n")?;
    match recording::write(buffer, k, samples) {
        Ok(end) => print!(rt; " length {end}\n")?,
        Err(why) => refusal(rt, why)?,
    }
    list(rt, "  bytes", buffer, buffer.len())
}

// Example n: with bytes before and behind it, in just its room, and refused. What lies in a buffer is 170.
fn writings(rt: &impl Print) -> io::Result<()> {
    written_into(rt, &mut [170u8; 17], 1, &[-2i32])?;
    written_into(rt, &mut [170u8; 18], 1, &[-2i32])?;
    written_into(rt, &mut [170u8; 16], 1, &[-2i32])?;
    written_into(rt, &mut [170u8; 16], 0, &[-2147483648i32])?;
    written_into(rt, &mut [170u8; 12], 0, &[0i32; 0])?;
    written_into(rt, &mut [170u8; 11], 0, &[0i32; 0])?;
    written_into(rt, &mut [170u8; 4], 4, &[0i32; 0])?;
    // One sample more than a recording may have.
    written_into(rt, &mut [170u8; 4], 0, &[0i32; 65537])?;
    written_into(rt, &mut [170u8; 4], 5, &[0i32; 65537])?;
    written_into(rt, &mut [170u8; 17], 18446744073709551615, &[7i32])
}

// Example o: traces with lost stitches, which strike every window, or some.
fn lost(rt: &impl Print) -> io::Result<()> {
    example(rt, "o", &[7i32], &[LOST, LOST])?;
    example(rt, "o", &[1i32, 2], &[1i32, 2, LOST, 1, 2])?;
    example(rt, "o", &[1i32, 2, 3], &[1i32, 2, 2, LOST, 1, 2, 3])
}

// Example p: a pattern prepared into four tables of N entries.
fn prepared_into<const N: usize>(rt: &impl Print, pattern: &[i32]) -> io::Result<()>
    requires { N ≤ 1025 }
{
    let mut low = [0u16; N];
    let mut high = [0u16; N];
    let mut witness_i = [0u16; N];
    let mut witness_j = [0u16; N];
    print!(rt; "p")?;
    match tables::prepare(pattern, &mut low, &mut high, &mut witness_i, &mut witness_j) {
        Ok(()) => print!(rt; "\n"),
        Err(why) => refusal(rt, why),
    }
}

// Example p: patterns with lost stitches, the last of them too long.
fn unprepared(rt: &impl Print) -> io::Result<()> {
    prepared_into::<2>(rt, &[LOST, 2147483647])?;
    prepared_into::<0>(rt, &[3i32, LOST, LOST])?;
    prepared_into::<1025>(rt, &[LOST; 1025])
}

fn main(rt: HostRuntime) -> io::Result<()> {
    tables(&rt)?;
    bends(&rt)?;
    few(&rt)?;
    steep(&rt)?;
    limits(&rt)?;
    recordings(&rt)?;
    foreigners(&rt)?;
    writings(&rt)?;
    lost(&rt)?;
    unprepared(&rt)
}
