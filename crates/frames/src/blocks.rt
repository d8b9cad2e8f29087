// The test of a patch at neighbouring columns of a frame, many at once: a mask tells which of them still stand, and one place of the patch
// after the other thins it out.
//
// Follows docs/RULES.md, "Test of a place" and "Frames". A turn of a loop over the mask is the same few steps whatever the samples, so the
// compiler takes sixteen columns at once. A block is left when none stands. The last places are tried first, since each lies close between
// two neighbours and fells more columns than an early one. Where a few columns stand after some places each goes on alone: most of a mask
// that nearly all have left is work for nothing. Places pass or fail each by itself, so their order changes no answer.

ghost use Rattle.std.specs.Prelude.{◌≡◌, ℕ, ◌+◌, ◌≤◌, ◌<◌, Bool, length};
ghost use Rattle.frames.specs.Inside.{step_test, StepWithin, Within, Counted, Narrowed, Stands, Looked, BlockTested};

use crate::places::{NOWHERE, Step, still_stands};

// How many columns are looked at together.
pub(crate) const BLOCK: usize = 128;

// So few go on alone, once so many places are done: a place costs a dozen columns alone what it costs a block.
const FEW: u8 = 12;

const SOME_PLACES: usize = 16;

// So many of the last places are tried first, of patches with more than four times as many.
const LAST_PLACES: usize = 4;

// Thins a mask out by a test of its columns' numbers; answers a number of those that stand then. Each of the tests below makes a loop of
// its own, of sixteen columns a turn.
fn narrow_where<F: Fn(usize) -> bool>(mask: &mut [bool], passes: F) -> u8
    requires callable { (i : ℕ) → i < length mask.old → F.pre passes i }
    requires few { length mask.old ≤ 128 }
    ensures { (t : ℕ → Bool) → ((i : ℕ) (r : Bool) → i < length mask.old → F.post passes i r → r ≡ t i) → Narrowed t mask.old result mask.new }
{
    let mut standing: u8 = 0;
    for (i, stands) in mask.iter_mut().enumerate() {
        *stands = *stands & passes(i);
        standing += u8::from(*stands);
    }
    standing
}

// Where a place passes its test, of the starts from `at` on, by its offset and its neighbours'. One with no neighbour passes everywhere.
fn narrow(frame: &[u16], at: usize, step: Step, mask: &mut [bool], standing: u8) -> u8
    requires { StepWithin frame.now at (length mask.old) step × Counted mask.old standing }
    ensures { Narrowed (λ i. step_test frame.now (at + i) step) mask.old result mask.new }
{
    let Step { here, below, above } = step;
    let own = at + here;
    if below == above {
        if below == here {
            return standing;
        }
        let low = at + below;
        return narrow_where(mask, |i| frame[own + i] == frame[low + i]);
    }
    if below == NOWHERE {
        let high = at + above;
        return narrow_where(mask, |i| frame[own + i] < frame[high + i]);
    }
    let low = at + below;
    if above == NOWHERE {
        return narrow_where(mask, |i| frame[low + i] < frame[own + i]);
    }
    let high = at + above;
    narrow_where(mask, |i| {
        let here = frame[own + i];
        (frame[low + i] < here) & (here < frame[high + i])
    })
}

// The first of the places that are tried before the others. A small patch has none: there they would be tried twice for little.
fn first_late(m: usize) -> usize
    ensures { result ≤ m }
{
    if m <= 4 * LAST_PLACES {
        return m;
    }
    m - LAST_PLACES
}

// The last places, as long as any column stands; answers a number of those that do. Apart from `look`, which goes the other way, ends
// sooner and learns that places pass: one function for both would take all three from its caller. Frame, steps and start come one by one
// here, above and below: as methods of a strip (rows.rt) these would ask that the mask is as long as the strip is wide, in place of
// `Within`: as many clauses as these have.
fn look_late(frame: &[u16], steps: &[Step], at: usize, mask: &mut [bool], all: u8) -> u8
    requires { Within frame.now steps.now at (length mask.old) × Looked frame.now steps.now at 0 all mask.old }
    ensures { Looked frame.now steps.now at 0 result mask.new }
{
    let mut standing = all;
    for step in steps[first_late(steps.len())..].iter().rev() {
        standing = narrow(frame, at, *step, mask, standing);
        if standing == 0 {
            return standing;
        }
    }
    standing
}

// How far a block was looked at together.
#[derive(Clone, Copy)]
struct Glance {
    done: usize,
    standing: u8,
}

// At how many standing a look together ends, once so many places are done.
fn limit_after(done: usize) -> u8 {
    if done < SOME_PLACES {
        return 0;
    }
    FEW
}

// Place after place, as long as enough stand.
fn look(frame: &[u16], steps: &[Step], at: usize, mask: &mut [bool], late: u8) -> Glance
    requires { Within frame.now steps.now at (length mask.old) × Looked frame.now steps.now at 0 late mask.old }
    ensures { Looked frame.now steps.now at result.done result.standing mask.new }
{
    let tried = steps.len() - first_late(steps.len());
    let mut standing = late;
    for (j, step) in steps.iter().enumerate() {
        standing = narrow(frame, at, *step, mask, standing);
        let done = j + 1;
        if standing <= limit_after(tried + done) {
            return Glance { done, standing };
        }
    }
    let done = steps.len();
    Glance { done, standing }
}

// The places from `from` on, for each column that stands. Not by `narrow_where`, which asks fallen columns too: a test here is up to m
// comparisons.
fn look_alone(frame: &[u16], steps: &[Step], at: usize, from: usize, mask: &mut [bool]) -> u8
    requires { Within frame.now steps.now at (length mask.old) × Stands frame.now steps.now at from mask.old × (from ≤ length steps.now) × (length mask.old ≤ 128) }
    ensures { BlockTested frame.now steps.now at result mask.new }
{
    let rest = &steps[from..];
    let mut standing: u8 = 0;
    for (i, stands) in mask.iter_mut().enumerate() {
        *stands = still_stands(*stands, frame, rest, at + i);
        standing += u8::from(*stands);
    }
    standing
}

// Where all places pass; `all` is the number of columns. The answer is 0 only if that is nowhere, and then the mask tells nothing; and it
// is the number of columns only if it is everywhere.
pub(crate) fn test_block(frame: &[u16], steps: &[Step], at: usize, mask: &mut [bool], all: u8) -> u8
    requires { Within frame.now steps.now at (length mask.old) × Looked frame.now steps.now at 0 all mask.old }
    ensures { BlockTested frame.now steps.now at result mask.new }
{
    let late = look_late(frame, steps, at, mask, all);
    if late == 0 {
        return late;
    }
    let glance = look(frame, steps, at, mask, late);
    let done = glance.done;
    let standing = glance.standing;
    if standing == 0 {
        return standing;
    }
    if done < steps.len() {
        return look_alone(frame, steps, at, done, mask);
    }
    standing
}
