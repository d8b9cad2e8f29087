// Whether neighbour tables that were handed over are the pattern's own, told by looking at what they claim.
//
// Follows docs/RULES.md, "Neighbours". A place's neighbours are right if no earlier sample lies between them, and none that equals
// one of them stands after it. Each place goes once over the earlier ones, m² / 2 steps in all, in loops with no test inside, which
// the compiler turns into steps of four samples. "No" only means that some entry is not shown to be right. No array is kept.

ghost use Rattle.std.specs.Prelude.{◌≡◌, true, ◌≤◌, IfSome};
ghost use Rattle.tables.specs.Inside.Asked.{OwnNeighbours};
ghost use Rattle.tables.specs.Inside.Claims.{Floor, Ceiling, NoneBetween, OwnEntries};

use crate::handed::Handed;
use crate::neighbours::none_within;
use crate::site::Site;
use order::NONE;

// Where the samples begin that a claimed neighbour forbids. Up to the neighbour that is the next value beyond its own, since an equal
// sample may stand there; from `start` on, the place after it, it is its own value. Where no neighbour is claimed all is forbidden.
#[derive(Clone, Copy)]
struct Limit {
    start: usize,
    before: i32,
    after: i32,
}

impl Site<'_, i32> {
    // What the low neighbour l, claimed of place j, forbids from below. There is no such limit if it is no earlier place with a lower
    // sample; an equal one would be both neighbours. One more than a sample that has a greater one beside it is a sample.
    fn floor(&self, l: u16) -> Option<Limit>
        ensures { IfSome result (λ r. Floor self.now.pattern.now self.now.j l r.start r.before r.after) }
    {
        let x = self.pattern[self.j];
        if l == NONE {
            return Some(Limit {
                start: 0,
                before: i32::MIN,
                after: i32::MIN,
            });
        }
        let at = usize::from(l);
        if at < self.j {
            let y = self.pattern[at];
            if y < x {
                return Some(Limit {
                    start: at + 1,
                    before: y + 1,
                    after: y,
                });
            }
        }
        None
    }

    // The same of the high neighbour, from above. Two functions: one for both would take its test, its step and its edge as parameters.
    fn ceiling(&self, h: u16) -> Option<Limit>
        ensures { IfSome result (λ r. Ceiling self.now.pattern.now self.now.j h r.start r.before r.after) }
    {
        let x = self.pattern[self.j];
        if h == NONE {
            return Some(Limit {
                start: 0,
                before: i32::MAX,
                after: i32::MAX,
            });
        }
        let at = usize::from(h);
        if at < self.j {
            let y = self.pattern[at];
            if x < y {
                return Some(Limit {
                    start: at + 1,
                    before: y - 1,
                    after: y,
                });
            }
        }
        None
    }

    // Whether no sample before place j lies between the limits: up to the first neighbour, from one to the other, of which one range is
    // empty, and after both.
    fn none_between(&self, below: Limit, above: Limit) -> bool
        requires { (below.start ≤ self.now.j) × (above.start ≤ self.now.j) }
        ensures { result ≡ true → NoneBetween self.now.pattern.now self.now.j below.start below.before below.after above.start above.before above.after }
    {
        let pattern = self.pattern;
        let low = below.start;
        let high = above.start;
        none_within(pattern, 0, low.min(high), below.before, above.before)
            & none_within(pattern, low, high, below.after, above.before)
            & none_within(pattern, high, low, below.before, above.after)
            & none_within(pattern, low.max(high), self.j, below.after, above.after)
    }

    // Whether place k is both neighbours of place j: an earlier equal sample with no other after it; at place 0 there is none.
    fn equal_fits(&self, k: u16) -> bool
        ensures { result ≡ true → OwnEntries self.now.pattern.now self.now.j k k }
    {
        if k == NONE {
            return self.j == 0;
        }
        let at = usize::from(k);
        if at < self.j {
            let x = self.pattern[at];
            return (x == self.pattern[self.j]) & none_within(self.pattern, at + 1, self.j, x, x);
        }
        false
    }

    // Whether l and h are the neighbours of place j.
    fn place_fits(&self, l: u16, h: u16) -> bool
        ensures { result ≡ true → OwnEntries self.now.pattern.now self.now.j l h }
    {
        if l == h {
            return self.equal_fits(l);
        }
        match (self.floor(l), self.ceiling(h)) {
            (Some(below), Some(above)) => self.none_between(below, above),
            _ => false,
        }
    }
}

impl Handed<'_> {
    // Whether the tables are shown to hold the pattern's own neighbours. Counted: zipped, low and high would be cut to the pattern first,
    // and `Site` takes the number j besides.
    pub(crate) fn neighbours_fit(self) -> bool
        ensures { result ≡ true → OwnNeighbours self.entry.pattern.now self.entry.low.now self.entry.high.now }
    {
        let pattern = self.pattern;
        let low = self.low;
        let high = self.high;
        for j in 0..pattern.len() {
            let site = Site { pattern, j };
            if !site.place_fits(low[j], high[j]) {
                return false;
            }
        }
        true
    }
}
