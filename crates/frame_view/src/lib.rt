// A camera's frame as it lies in the driver's buffer, and the search in it: a struct that borrows the buffer beside the three numbers that
// say how rows lie in it, so that a caller who has a frame passes one thing and not four.
//
// Follows docs/RULES.md, "Frames". Costs nothing beside the one call of the crate `frames`: no sample is copied, and what that call
// promises of a buffer and three numbers is promised of the frame. A view is made of any buffer and any numbers: it is the search that
// looks at them, and refuses those that don't fit. The two functions are thin, and the work is elsewhere.

#![tactic(auto)]

ghost use Rattle.std.specs.Prelude.{◌≡◌};
ghost use Rattle.frames.specs.FramePromise.{FramePromise};

use frames::{Sighted, search_frame};
use order::Refusal;

// A frame: the driver's own samples, and how many rows and columns of them there are and how far apart rows start.
#[derive(Clone, Copy)]
pub struct Frame<'a> {
    pub samples: &'a [u16],
    pub height: usize,
    pub width: usize,
    pub pitch: usize,
}

// A view of a buffer of samples. A function, and no method of the struct: callers have it by this name.
pub fn view<'a>(samples: &'a [u16], height: usize, width: usize, pitch: usize) -> Frame<'a>
    ensures { (result.samples ≡ samples.entry) × (result.height ≡ height) × (result.width ≡ width) × (result.pitch ≡ pitch) }
{
    Frame {
        samples,
        height,
        width,
        pitch,
    }
}

// Seeks a patch of h rows and k columns, packed, in a frame: the places are listed, or nothing is stored. Patch, h and k come one by one,
// as `search_frame` and `FramePromise` take them.
pub fn search_view<'a>(
    frame: Frame<'a>,
    patch: &[u16],
    h: usize,
    k: usize,
    positions: &mut [u32],
) -> Result<Sighted, Refusal>
    ensures { FramePromise frame.entry.samples.now frame.entry.height frame.entry.width frame.entry.pitch patch.now h k positions.old result positions.new }
{
    search_frame(
        frame.samples,
        frame.height,
        frame.width,
        frame.pitch,
        patch,
        h,
        k,
        positions,
    )
}
