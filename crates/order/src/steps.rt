// What one step of a search comes to, and what a whole search counts: the words that the rules of specs/ and the code of
// the search share. Follows docs/RULES.md, "Test of a place", "Duels", "Sweep" and "Counts". These are types alone.

use crate::kinds::Place;

// What the test of one place comes to: the comparisons it spent and, where it failed, the place of the neighbour that failed. No Result,
// since both cases carry what was spent.
#[derive(Clone, Copy)]
pub enum Tested {
    Passed(u32),
    Failed(u32, Place),
}

// What becomes of the older and the newer of two windows when the newer looks at the older.
#[derive(Clone, Copy)]
pub enum Meeting {
    Agree,
    OlderFalls,
    NewerFalls,
    BothFall,
}

// What an accepted search counts.
#[derive(Clone, Copy)]
pub struct Counts {
    // N: the windows of the trace.
    pub windows: u32,
    // D: the duels fought.
    pub duels: u32,
    // S: the windows that survived them.
    pub survivors: u32,
    // W: the comparisons that the rules count for the sweep.
    pub sweep: u32,
    // R: the positions listed.
    pub found: u32,
    // The windows that hold a lost stitch, which are struck before the duels.
    pub struck: u32,
}
