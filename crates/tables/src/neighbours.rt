// The neighbour tables: for each place of the pattern the earlier place whose value is nearest from below, and from above.
//
// Follows docs/RULES.md, "Neighbours". A place finds the values of its two neighbours first, and then goes back to the last earlier
// place that has each. Asked apart, neither question needs a branch for each sample, so the compiler turns both loops into steps of
// four samples of 32 bits, or of eight levels of 16. The two tables together take m² / 2 steps by fours for the values and at most m² by
// eights for the places, and half as many for levels, and no working list. Callers hand over a pattern of at most 1,024 samples, whose
// places an entry can hold.

ghost use Rattle.std.specs.Prelude.{◌≡◌, true, ◌≤◌, length, map};
ghost use Rattle.order.specs.Sizes.{pattern_limit};
ghost use Rattle.order.specs.Neighbours.{low_table, high_table};
ghost use Rattle.order.specs.Written.{over};
ghost use Rattle.tables.specs.Inside.Claims.{NoneWithin, OwnEntries};
ghost use Rattle.tables.specs.Inside.NearValues.{NearestValues, LastEqual};

use crate::sample::Sample;
use crate::site::Site;
use order::NONE;

// Whether none of the samples at the places from..to lies from lo to hi, both counted in. It looks at all of them even after one that
// does: a loop that could end early would take them one by one. Where `to` lies before `from` there are none.
pub(crate) fn none_within<T: Sample>(pattern: &[T], from: usize, to: usize, lo: T, hi: T) -> bool
    requires { to ≤ length pattern.now }
    ensures { result ≡ true → NoneWithin (map T.value pattern.now) from to (T.value lo) (T.value hi) }
{
    let mut clear = true;
    let start = from.min(to);
    for &x in &pattern[start..to] {
        x.lies_within();
        clear = clear & ((x < lo) | (hi < x));
    }
    clear
}

impl<T: Sample> Site<'_, T> {
    // The values of place j's neighbours, the low one's first; where there is none it is the limit on that side. A sample on the other side
    // counts as that limit, which changes nothing, so each turn is the same few steps whatever the sample.
    fn nearest_values(&self) -> (T, T)
        ensures { NearestValues (T.value T.LEAST) (T.value T.GREATEST) (map T.value self.now.pattern.now) self.now.j (T.value result.0) (T.value result.1) }
    {
        let pattern = self.pattern;
        let x = pattern[self.j];
        x.lies_within();
        let mut below = T::LEAST;
        let mut above = T::GREATEST;
        for &y in &pattern[..self.j] {
            y.lies_within();
            let low = if y <= x { y } else { T::LEAST };
            let high = if x <= y { y } else { T::GREATEST };
            below = below.max(low);
            above = above.min(high);
        }
        (below, above)
    }

    // Back from place j over samples that are not v, many at once: a place from which on, up to j, there is none. A `while`, since a turn
    // goes back by a stride: a range's `step_by` begins at its start, while what is left over must lie at the pattern's start, and over
    // `rchunks` a turn would count the chunks' lengths down all the same, since the answer is a place.
    fn pass_over(&self, v: T) -> usize
        ensures { (result ≤ self.now.j) × NoneWithin (map T.value self.now.pattern.now) result self.now.j (T.value v) (T.value v) }
    {
        let mut i = self.j;
        while T::STRIDE <= i {
            if none_within(self.pattern, i - T::STRIDE, i, v, v) {
                i -= T::STRIDE;
            } else {
                return i;
            }
        }
        i
    }

    // The entry of the last place before j whose sample is v. A limit that stands for no neighbour is found nowhere, since a sample that
    // equals it would be on that side: so it needs no case of its own. By `rposition`, which proves as well, a preparation of 1,024 random
    // samples takes 1.11 of the time, and one of levels 1.02.
    fn last_equal(&self, v: T) -> u16
        ensures { LastEqual (map T.value self.now.pattern.now) self.now.j (T.value v) result }
    {
        let pattern = self.pattern;
        for i in (0..self.pass_over(v)).rev() {
            let x = pattern[i];
            x.lies_within();
            if x == v {
                return i as u16;
            }
        }
        NONE
    }

    // The entries of place j's neighbours, the low one's first.
    fn own_entries(&self) -> (u16, u16)
        ensures { OwnEntries (map T.value self.now.pattern.now) self.now.j result.0 result.1 }
    {
        let (below, above) = self.nearest_values();
        (self.last_equal(below), self.last_equal(above))
    }
}

// Writes the neighbours of all places. The loop counts: a place's entries are made by its number, which a chain would count as well. The
// two tables come as callers lend them: `write_witnesses` then reads these two and writes the others, so no struct is lent to both.
pub(crate) fn write_neighbours<T: Sample>(pattern: &[T], low: &mut [u16], high: &mut [u16])
    requires { (length pattern.now ≤ length low.old) × (length pattern.now ≤ length high.old) × (length pattern.now ≤ pattern_limit) }
    ensures { (low.new ≡ over (low_table (map T.value pattern.now)) low.old) × (high.new ≡ over (high_table (map T.value pattern.now)) high.old) }
{
    for j in 0..pattern.len() {
        (low[j], high[j]) = Site { pattern, j }.own_entries();
    }
}
