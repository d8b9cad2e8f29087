// What a call answered and what its buffers hold, in the reference's words, on standard output.
//
// Follows reference/README.md, "The stream of cases". A write for each word, each entry and its space, and each run.

use order::{Refusal, UNUSED};
use std::fmt::Display;
use std::io;

// What buffers hold before a call, so that an entry which the call should have kept shows.
pub(crate) const GUARD8: u8 = 170;

pub(crate) const GUARD16: u16 = 43690;

pub(crate) const GUARD32: u32 = 2863311530;

pub(crate) const GUARD_SAMPLE: i32 = -1431655766;

// Standard output; after a write that failed, what writes nothing more. A case is read before its first word is written, so the stream is
// gone through to its end all the same. A struct, and no flag at each write: the functions between hand a failure up by `?`.
#[derive(Clone, Copy)]
pub(crate) struct Output<'a, R>(Option<&'a R>);

impl<'a, R: Print> Output<'a, R> {
    pub(crate) fn after(rt: &'a R, ended: &io::Result<()>) -> Output<'a, R> {
        match ended {
            Ok(()) => Output(Some(rt)),
            Err(_) => Output(None),
        }
    }
}

// One match in each: all that the three share, since each passes another call on.
impl<R: Print> Print for Output<'_, R> {
    fn print<D: Display + Drop>(&self, value: D) -> io::Result<()> {
        match self.0 {
            Some(rt) => rt.print(value),
            None => Ok(()),
        }
    }

    fn println<D: Display + Drop>(&self, value: D) -> io::Result<()> {
        match self.0 {
            Some(rt) => rt.println(value),
            None => Ok(()),
        }
    }

    fn write_all(&self, bytes: &[u8]) -> io::Result<()> {
        match self.0 {
            Some(rt) => rt.write_all(bytes),
            None => Ok(()),
        }
    }
}

// A refusal's number and place, at a line's end. No `Display` of `Refusal`: each program says it in words of its own.
pub(crate) fn refusal(rt: &impl Print, why: Refusal) -> io::Result<()> {
    let number = why.number();
    let place = why.place();
    println!(rt; " {number} {place}")
}

// Guards and entries "unused", of which a run is told by its length, and all other entries, which are told one by one.
#[derive(Clone, Copy, PartialEq, Eq)]
pub(crate) enum Mark {
    Guard,
    Unused,
    Plain,
}

// An entry of a list that is shown.
pub(crate) trait Entry: Copy + Display {
    fn mark(self) -> Mark;
}

impl Entry for u16 {
    fn mark(self) -> Mark {
        match self {
            GUARD16 => Mark::Guard,
            _ => Mark::Plain,
        }
    }
}

impl Entry for i32 {
    fn mark(self) -> Mark {
        match self {
            GUARD_SAMPLE => Mark::Guard,
            _ => Mark::Plain,
        }
    }
}

impl Entry for u32 {
    fn mark(self) -> Mark {
        match self {
            GUARD32 => Mark::Guard,
            UNUSED => Mark::Unused,
            _ => Mark::Plain,
        }
    }
}

// Entries that all have one mark.
fn show_run<T: Entry>(rt: &impl Print, run: &[T]) -> io::Result<()> {
    let length = run.len();
    match run.first().map(|x| x.mark()) {
        Some(Mark::Guard) => print!(rt; " g{length}"),
        Some(Mark::Unused) => print!(rt; " u{length}"),
        Some(Mark::Plain) => {
            for entry in run {
                print!(rt; " {entry}")?;
            }
            Ok(())
        }
        None => Ok(()),
    }
}

// A list on a line of its own: its name and its entries.
pub(crate) fn show<T: Entry>(rt: &impl Print, name: &str, list: &[T]) -> io::Result<()> {
    print!(rt; "{name}")?;
    for run in list.chunk_by(|a, b| a.mark() == b.mark()) {
        show_run(rt, run)?;
    }
    print!(rt; "\n")
}
