// The test of a patch at one place of a frame, by its neighbours: for the few columns of a block that still stand when most have fallen.
//
// Follows docs/RULES.md, "Test of a place" and "Frames". At most two comparisons a place of the patch, and none after the first that fails.
// A place is known by three offsets, its own and those of its neighbours, so that a test reads no table but these. Callers hand over a
// start from which all of the patch's places lie inside the frame.

ghost use Rattle.std.specs.Prelude.{◌≡◌, ◌+◌, ◌<◌, ◌&&◌, length, get_or};
ghost use Rattle.frames.specs.Inside.{step_test, all_places_pass, StepWithin, Within};

// The offset of a neighbour that is none. Two of Option<usize> would make a step of 24 bytes one of 40, which is 16 KB of stack more.
pub(crate) const NOWHERE: usize = 18446744073709551615;

// A place of the patch over the frame: how far it lies from the patch's first sample, and how far its neighbours below and above do. A
// place with no neighbour stands for both itself.
#[derive(Clone, Copy)]
pub(crate) struct Step {
    pub(crate) here: usize,
    pub(crate) below: usize,
    pub(crate) above: usize,
}

// The level so far from the first.
fn level_under(under: &[u16], offset: usize) -> u16
    requires { offset < length under.now }
    ensures { result ≡ get_or under.now (0 + offset) 0 }
{
    under[offset]
}

// Whether a place passes its test, if the patch's first sample is the first here. Where the two neighbours are one place, the patch's level
// is equal there; otherwise it lies strictly between them. `narrow` (blocks.rt) has the same cases before its loops; here they are told
// apart at each place.
fn step_passes(under: &[u16], step: Step) -> bool
    requires { StepWithin under.now 0 1 step }
    ensures { result ≡ step_test under.now 0 step }
{
    let Step { here, below, above } = step;
    let level = level_under(under, here);
    if below == above {
        return level == level_under(under, below);
    }
    if below == NOWHERE {
        return level < level_under(under, above);
    }
    if above == NOWHERE {
        return level_under(under, below) < level;
    }
    (level_under(under, below) < level) & (level < level_under(under, above))
}

// Whether these places pass. The frame is given from the patch's first sample on: so an offset is an index, with nothing to add.
// A loop and not `all`: with it the search is laid out otherwise, and frames sought for 2 x 2 samples take 1.12 to 1.21 of the time.
fn rest_passes(under: &[u16], rest: &[Step]) -> bool
    requires { Within under.now rest.now 0 1 }
    ensures { result ≡ all_places_pass under.now rest.now 0 }
{
    for step in rest {
        if !step_passes(under, *step) {
            return false;
        }
    }
    true
}

// Whether a column stands after these places too.
pub(crate) fn still_stands(stands: bool, frame: &[u16], rest: &[Step], at: usize) -> bool
    requires { Within frame.now rest.now at 1 }
    ensures { result ≡ (stands && all_places_pass frame.now rest.now at) }
{
    if stands {
        return rest_passes(&frame[at..], rest);
    }
    false
}
