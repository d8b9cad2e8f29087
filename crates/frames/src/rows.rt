// A patch over a whole frame, row after row, and in each row a block of columns after the other; the places that match are listed.
//
// Follows docs/RULES.md, "Frames". Listing has no branch: each place is stored behind the list, and the list grows over it if the place
// matches; where all places of a block do, a plain loop writes them. Each function here is lent the entries behind the list so far, and
// answers how many of them it filled. Callers hand over the `Step`s, offsets of places and of their neighbours, of a patch that lies inside
// the frame at all places tried, and room for all of these places.

ghost use Rattle.std.specs.Prelude.{◌≡◌, false, ◌+◌, ◌*◌, ◌≤◌, length, get_or};
ghost use Rattle.order.specs.Sizes.{each};
ghost use Rattle.frames.specs.Inside.{Within, all_places_pass, AllStand, Listed, RowsListed, Grid};

use crate::blocks::{BLOCK, test_block};
use crate::places::Step;
use crate::reach::Reach;

// Neighbouring columns of one row, and the patch's `Step`s, a place's offset and its neighbours' each, that are laid at them: where the
// first of them starts in the frame, the number of its place, and how many there are. That the entries lent are as many at least is asked
// of each method, as in reach.rt.
#[derive(Clone, Copy)]
struct Strip<'a, 'b> {
    frame: &'a [u16],
    steps: &'b [Step],
    at: usize,
    base: usize,
    columns: usize,
    ghost within: { Within frame.now steps.now at columns },
    ghost numbered: { base + columns ≤ 4294967296 },
}

// Lists those that stand in a mask, counted from base.
fn list_standing(mask: &[bool], base: usize, free: &mut [u32]) -> usize
    requires { (length mask.now ≤ length free.old) × (base + length mask.now ≤ 4294967296) }
    ensures { Listed (λ i. get_or mask.now i false) base (length mask.now) 0 free.old result free.new }
{
    let mut n: usize = 0;
    for (i, stands) in mask.iter().enumerate() {
        free[n] = (base + i) as u32;
        n += usize::from(*stands);
    }
    n
}

// Lists a place in every entry, from base on. Beside `keep_run` (duels), which says why there are two.
fn list_all(base: usize, entries: &mut [u32])
    requires { base + length entries.old ≤ 4294967296 }
    ensures { entries.new ≡ each (λ i. base + i) (length entries.old) }
{
    for (i, place) in entries.iter_mut().enumerate() {
        *place = (base + i) as u32;
    }
}

impl<'a, 'b> Strip<'a, 'b> {
    // Lists the places of a block, by a mask in which all of its columns stand.
    fn search_masked(self, mask: &mut [bool], free: &mut [u32]) -> usize
        requires { AllStand mask.old × (length mask.old ≡ self.columns) × (self.columns ≤ length free.old) }
        ensures { Listed (λ i. all_places_pass self.entry.frame.now self.entry.steps.now (self.entry.at + i)) self.entry.base self.entry.columns 0 free.old result free.new }
    {
        let all = self.columns as u8;
        let standing = test_block(self.frame, self.steps, self.at, mask, all);
        if standing == 0 {
            return 0;
        }
        if standing == all {
            list_all(self.base, &mut free[0..self.columns]);
            return self.columns;
        }
        list_standing(mask, self.base, free)
    }

    // Lists the places of a block.
    fn search_block(self, free: &mut [u32]) -> usize
        requires { (self.columns ≤ 128) × (self.columns ≤ length free.old) }
        ensures { Listed (λ i. all_places_pass self.entry.frame.now self.entry.steps.now (self.entry.at + i)) self.entry.base self.entry.columns 0 free.old result free.new }
    {
        let mut mask = [true; BLOCK];
        self.search_masked(&mut mask[0..self.columns], free)
    }

    // Lists the places of a row, block by block. A `while` with a block's width: of a range's `step_by` the compiler makes four counts of the
    // columns that are left, and a frame of 8 columns sought for one sample takes 1.34 times as long, one of 320 for 2 x 2 1.29 times.
    fn search_row(self, free: &mut [u32]) -> usize
        requires { self.columns ≤ length free.old }
        ensures { Listed (λ i. all_places_pass self.entry.frame.now self.entry.steps.now (self.entry.at + i)) self.entry.base self.entry.columns 0 free.old result free.new }
    {
        let mut n: usize = 0;
        let mut c: usize = 0;
        while c < self.columns {
            let wide = BLOCK.min(self.columns - c);
            let block = Strip {
                frame: self.frame,
                steps: self.steps,
                at: self.at + c,
                base: self.base + c,
                columns: wide,
            };
            n += block.search_block(&mut free[n..]);
            c += wide;
        }
        n
    }
}

impl<'a> Reach<'a> {
    // Lists the places of all rows.
    pub(crate) fn search_rows(self, steps: &[Step], positions: &mut [u32]) -> usize
        requires { Grid self.frame.now steps.now self.pitch self.rows self.columns × (self.rows * self.columns ≤ length positions.old) }
        ensures { RowsListed (λ row column. all_places_pass self.entry.frame.now steps.now (row * self.entry.pitch + column)) self.entry.width self.entry.columns self.entry.rows positions.old result positions.new }
    {
        let mut found: usize = 0;
        for row in 0..self.rows {
            let strip = Strip {
                frame: self.frame,
                steps,
                at: row * self.pitch,
                base: row * self.width,
                columns: self.columns,
            };
            found += strip.search_row(&mut positions[found..]);
        }
        found
    }
}
