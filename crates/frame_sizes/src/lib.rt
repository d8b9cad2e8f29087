// The conditions on a frame, a patch and the buffers lent for them, under which a search of a frame is refused before it looks at a sample
// or stores anything; and the rows and columns at which the patch is tried.
//
// Follows docs/RULES.md, "Frames" and "Refusals", numbers 22 to 26, tried in this order. A handful of comparisons, two products and one
// division. Sizes may be any numbers: none of a caller's is multiplied or added before it is known to be small enough, and the pitch,
// which has no limit, never is. Assumes nothing of its callers.

#![tactic(auto)]

ghost use Rattle.std.specs.Prelude.{◌≡◌, ◌||◌, ◌*◌, ◌≤◌, ◌<◌, ltb, eqb};
ghost use Rattle.order.specs.Sizes.{windows_of};
ghost use Rattle.frame_sizes.specs.FrameSizes.{frame_limit, patch_limit, samples_needed};
ghost use Rattle.frame_sizes.specs.Tried.{TriesPromise};

use order::{Fault, Refusal};

// The greatest height and the greatest width of a frame, in samples.
pub const FRAME_LIMIT: usize = 1024;

// The most samples of a patch.
pub const PATCH_LIMIT: usize = 1024;

// Where a patch is tried: at so many rows, and at each of them at so many columns, either of which may be 0.
#[derive(Clone, Copy)]
pub struct Tries {
    pub rows: usize,
    pub columns: usize,
}

// 22: one of the sizes is 0.
fn is_zero(height: usize, width: usize, h: usize, k: usize) -> bool
    ensures { result ≡ (eqb height 0 || (eqb width 0 || (eqb h 0 || eqb k 0))) }
{
    (height == 0) | ((width == 0) | ((h == 0) | (k == 0)))
}

// Whether a patch has more samples than its limit. Its product is worked out only of sides within the limit.
fn is_large_patch(h: usize, k: usize) -> bool
    requires { (0 < h) × (0 < k) }
    ensures { result ≡ ltb patch_limit (h * k) }
{
    if PATCH_LIMIT < h {
        return true;
    }
    if PATCH_LIMIT < k {
        return true;
    }
    PATCH_LIMIT < h * k
}

// 23: a size above its limit.
fn is_large(height: usize, width: usize, h: usize, k: usize) -> bool
    requires { (0 < h) × (0 < k) }
    ensures { result ≡ (ltb frame_limit height || (ltb frame_limit width || ltb patch_limit (h * k))) }
{
    (FRAME_LIMIT < height) | ((FRAME_LIMIT < width) | is_large_patch(h, k))
}

// Whether a frame of so many samples has fewer than it needs. The rows before the last are divided into what is there, where a product with
// the pitch might be no number of the machine's.
fn is_short_frame(samples: usize, height: usize, width: usize, pitch: usize) -> bool
    requires { 0 < height }
    ensures { result ≡ ltb samples (samples_needed height width pitch) }
{
    if samples < width {
        return true;
    }
    if height == 1 {
        return false;
    }
    (samples - width) / (height - 1) < pitch
}

// At how many rows a patch of h is tried in a frame of so many; of columns likewise. Beside `count_windows` (sizes): one for both would be
// public, and n - m + 1 overflows for m = 0 and the greatest n.
#[tactic(auto, using(order::proofs::Lists::windows_of_as))]
fn tried(h: usize, height: usize) -> usize
    requires { height ≤ frame_limit }
    ensures { result ≡ windows_of h height }
{
    if h <= height {
        return height - h + 1;
    }
    0
}

// The sizes of a frame and of a patch, and the lengths of the three buffers, in entries. They are eight numbers, as `tension_frame` is
// handed them: a struct of a frame or a patch could promise nothing of its sizes before they have been looked at here.
#[tactic(auto, using(crate::proofs::FrameRows::no_zeros, crate::proofs::FrameRows::none_large, crate::proofs::FrameRows::sides_fit, crate::proofs::FrameRows::few_tried))]
pub fn for_frame(
    samples: usize,
    height: usize,
    width: usize,
    pitch: usize,
    patch: usize,
    h: usize,
    k: usize,
    positions: usize,
) -> Result<Tries, Refusal>
    ensures { TriesPromise samples height width pitch patch h k positions result }
{
    if is_zero(height, width, h, k) {
        return Err(Refusal::Unplaced(Fault::ZeroSize));
    }
    if is_large(height, width, h, k) {
        return Err(Refusal::Unplaced(Fault::LargeSize));
    }
    if pitch < width {
        return Err(Refusal::Unplaced(Fault::NarrowPitch));
    }
    if is_short_frame(samples, height, width, pitch) | (patch < h * k) {
        return Err(Refusal::Unplaced(Fault::ShortFrame));
    }
    let rows = tried(h, height);
    let columns = tried(k, width);
    if positions < rows * columns {
        return Err(Refusal::Unplaced(Fault::ShortPlaces));
    }
    Ok(Tries { rows, columns })
}
