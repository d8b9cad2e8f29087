// What is made of a patch before it is sought: the neighbours of its places, and how far each place and its neighbours lie from the first
// when the patch is laid on the frame.
//
// Follows docs/RULES.md, "Neighbours" and "Frames". The neighbours take most of it, m² / 2 steps by eights for a patch of m samples. 28 KB
// of stack: the two tables, and a step of three offsets for each place. Callers hand over a patch within its limit, and rows and columns at
// which it lies inside the frame.

ghost use Rattle.std.specs.Prelude.{◌≡◌, ◌+◌, ◌*◌, ◌≤◌, ◌<◌, length};
ghost use Rattle.frames.specs.Frames.{matches_at};
ghost use Rattle.frames.specs.Inside.{offsets_of, near_of, near_steps, pass_by_tables, Turned, LastFits, RowsListed, OffsetsInside};

use crate::places::{NOWHERE, Step};
use crate::reach::Reach;
use frame_sizes::PATCH_LIMIT;
use levels::level_neighbours;

// Where a place of the patch lies: how far its row starts from the first, and its column.
#[derive(Clone, Copy)]
struct Corner {
    start: usize,
    column: usize,
}

// The place after the last column of a row is the first of the next.
fn turned(start: usize, column: usize, k: usize, pitch: usize) -> Corner
    requires { column ≡ k → start + pitch < 18446744073709551616 }
    ensures { Turned start column k pitch result.start result.column }
{
    if column == k {
        return Corner {
            start: start + pitch,
            column: 0,
        };
    }
    Corner { start, column }
}

// The offsets of the places of a patch of k columns, row by row. Their neighbours' come later. Two numbers by hand: rows by `chunks_mut(k)`
// would put a loop inside a loop, and functions here have one.
fn lay_offsets(pitch: usize, k: usize, steps: &mut [Step])
    requires { LastFits pitch k (length steps.old) }
    ensures { steps.new ≡ offsets_of pitch k (length steps.old) }
{
    let mut start: usize = 0;
    let mut column: usize = 0;
    for step in steps.iter_mut() {
        let corner = turned(start, column, k, pitch);
        start = corner.start;
        column = corner.column;
        *step = Step {
            here: start + column,
            below: 0,
            above: 0,
        };
        column += 1;
    }
}

// The offset of the place that an entry of place j names. Where it names none, that is told; but a place whose other entry names none
// either stands for its neighbours itself, so that a test needs no look for none where the two are one.
fn near_offset(steps: &[Step], j: usize, entry: u16, other: u16) -> usize
    requires { j < length steps.now }
    ensures { result ≡ near_of steps.now j entry other }
{
    let i = usize::from(entry);
    if i < steps.len() {
        return steps[i].here;
    }
    if usize::from(other) < steps.len() {
        return NOWHERE;
    }
    steps[j].here
}

// The neighbours of all places, by the two tables. They are laid beside the offsets that they are taken from: a second array of these would
// be 8 KB of stack more. An entry may name any place, so all steps are read while one is written, and the loop goes by number.
fn lay_near(steps: &mut [Step], low: &[u16], high: &[u16])
    requires { (length steps.old ≤ length low.now) × (length steps.old ≤ length high.now) }
    ensures { steps.new ≡ near_steps steps.old low.now high.now }
{
    for j in 0..steps.len() {
        let below = near_offset(steps, j, low[j], high[j]);
        let above = near_offset(steps, j, high[j], low[j]);
        let here = steps[j].here;
        steps[j] = Step { here, below, above };
    }
}

impl<'a> Reach<'a> {
    // Lists the places of a patch whose places have these offsets and these neighbours. The two tables come side by side, here and around,
    // as `level_neighbours` writes them, whose promise `NeighboursPromise` names both.
    fn search_by_offsets(
        self,
        steps: &mut [Step],
        low: &[u16],
        high: &[u16],
        positions: &mut [u32],
    ) -> usize
        requires { OffsetsInside self.frame.now steps.old low.now high.now self.pitch self.rows self.columns × (self.rows * self.columns ≤ length positions.old) }
        ensures { RowsListed (λ row column. pass_by_tables self.entry.frame.now steps.old low.now high.now (row * self.entry.pitch + column)) self.entry.width self.entry.columns self.entry.rows positions.old result positions.new }
    {
        lay_near(steps, low, high);
        self.search_rows(steps, positions)
    }

    // Lists the places of a patch whose places have these neighbours.
    fn search_by_neighbours(self, low: &[u16], high: &[u16], positions: &mut [u32]) -> usize
        requires { (self.h * self.k ≤ length low.now) × (self.h * self.k ≤ length high.now) × (self.rows * self.columns ≤ length positions.old) }
        ensures { RowsListed (λ row column. pass_by_tables self.entry.frame.now (offsets_of self.entry.pitch self.entry.k (self.entry.h * self.entry.k)) low.now high.now (row * self.entry.pitch + column)) self.entry.width self.entry.columns self.entry.rows positions.old result positions.new }
    {
        let mut room = [Step {
            here: 0,
            below: 0,
            above: 0,
        }; PATCH_LIMIT];
        let steps = &mut room[0..self.h * self.k];
        lay_offsets(self.pitch, self.k, steps);
        self.search_by_offsets(steps, low, high, positions)
    }

    // Lists the places of a patch of these sides.
    pub(crate) fn search_patch(self, patch: &[u16], positions: &mut [u32]) -> usize
        requires { (self.h * self.k ≤ length patch.now) × (self.rows * self.columns ≤ length positions.old) }
        ensures { RowsListed (matches_at self.entry.frame.now self.entry.pitch patch.now self.entry.h self.entry.k) self.entry.width self.entry.columns self.entry.rows positions.old result positions.new }
    {
        let m = self.h * self.k;
        let mut low = [0u16; PATCH_LIMIT];
        let mut high = [0u16; PATCH_LIMIT];
        // Its sizes are right, so nothing is refused.
        let _ = level_neighbours(&patch[0..m], &mut low, &mut high);
        self.search_by_neighbours(&low, &high, positions)
    }
}
