// Why a call was refused. One enum serves every call; of the crates, this file with specs/Refusals.antt is the only place that
// knows the numbers. Follows docs/RULES.md, "Refusals". Each function is one look at the case.

ghost use Rattle.std.specs.Prelude.{◌≡◌};
ghost use Rattle.order.specs.Refusals.{table_number, foreign_number_lem, fault_number, number_of, place_of};

use crate::limits::INPUT_LIMIT;

// The four tables that preparation writes.
#[derive(Clone, Copy)]
pub enum Table {
    Low,
    High,
    WitnessI,
    WitnessJ,
}

impl Table {
    // The table's number among the four, from 1.
    pub fn number(self) -> usize
        ensures { result ≡ table_number self }
    {
        match self {
            Table::Low => 1,
            Table::High => 2,
            Table::WitnessI => 3,
            Table::WitnessJ => 4,
        }
    }

    // The number of the refusal that names the table. A table of its own: that each is 13 more than the table's number is no rule.
    fn foreign_number(self) -> usize
        ensures { result ≡ foreign_number_lem self }
    {
        match self {
            Table::Low => 14,
            Table::High => 15,
            Table::WitnessI => 16,
            Table::WitnessJ => 17,
        }
    }
}

// What is wrong with a call where the number says it all: such a refusal's place is 0.
#[derive(Clone, Copy)]
pub enum Fault {
    LongLead,
    ManySamples,
    ShortBuffer,
    ZeroSize,
    LargeSize,
    NarrowPitch,
    ShortFrame,
    ShortPlaces,
}

impl Fault {
    // The number of the refusal for it.
    fn number(self) -> usize
        ensures { result ≡ fault_number self }
    {
        match self {
            Fault::LongLead => 18,
            Fault::ManySamples => 19,
            Fault::ShortBuffer => 20,
            Fault::ZeroSize => 22,
            Fault::LargeSize => 23,
            Fault::NarrowPitch => 24,
            Fault::ShortFrame => 25,
            Fault::ShortPlaces => 26,
        }
    }
}

// Why a call was refused, with the number that its place tells.
#[derive(Clone, Copy)]
pub enum Refusal {
    EmptyPattern,
    LongPattern(usize),
    ShortTable(Table),
    LongTrace(usize),
    ShortSurvivors(usize),
    ShortPositions(usize),
    ShortRecording(usize),
    WrongMark(usize),
    WrongDistance(usize),
    LongDistance(usize),
    ShortSamples(usize),
    LongInput,
    // a table, and the lowest of its entries that is not the pattern's own
    ForeignEntry(Table, usize),
    // the pattern's first lost stitch
    LostStitch(usize),
    Unplaced(Fault),
}

impl Refusal {
    // The refusal's number.
    pub fn number(self) -> usize
        ensures { result ≡ number_of self }
    {
        match self {
            Refusal::EmptyPattern => 1,
            Refusal::LongPattern(_) => 2,
            Refusal::ShortTable(_) => 3,
            Refusal::LongTrace(_) => 4,
            Refusal::ShortSurvivors(_) => 5,
            Refusal::ShortPositions(_) => 6,
            Refusal::ShortRecording(_) => 8,
            Refusal::WrongMark(_) => 9,
            Refusal::WrongDistance(_) => 10,
            Refusal::LongDistance(_) => 11,
            Refusal::ShortSamples(_) => 12,
            Refusal::LongInput => 13,
            Refusal::ForeignEntry(t, _) => t.foreign_number(),
            Refusal::LostStitch(_) => 21,
            Refusal::Unplaced(f) => f.number(),
        }
    }

    // The refusal's place.
    pub fn place(self) -> usize
        ensures { result ≡ place_of self }
    {
        match self {
            Refusal::EmptyPattern => 0,
            Refusal::LongPattern(m) => m,
            Refusal::ShortTable(t) => t.number(),
            Refusal::LongTrace(n) => n,
            Refusal::ShortSurvivors(windows) => windows,
            Refusal::ShortPositions(windows) => windows,
            Refusal::ShortRecording(length) => length,
            Refusal::WrongMark(at) => at,
            Refusal::WrongDistance(at) => at,
            Refusal::LongDistance(at) => at,
            Refusal::ShortSamples(count) => count,
            Refusal::LongInput => INPUT_LIMIT,
            Refusal::ForeignEntry(_, at) => at,
            Refusal::LostStitch(at) => at,
            Refusal::Unplaced(_) => 0,
        }
    }
}
