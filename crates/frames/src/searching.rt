// The search for a patch in a frame: sizes are checked, and then the places that match are listed.
//
// Follows docs/RULES.md, "Frames", "What is written" and "Refusals". A refused call has stored nothing. A patch that is taller or wider
// than the frame has no places, and costs nothing.

ghost use Rattle.std.specs.Prelude.{◌≡◌, ◌*◌, ◌≤◌, length};
ghost use Rattle.order.specs.Sizes.{windows_of};
ghost use Rattle.frame_sizes.specs.FrameSizes.{places_of};
ghost use Rattle.frame_sizes.specs.Tried.{SizesFit};
ghost use Rattle.frames.specs.Frames.{matches_at};
ghost use Rattle.frames.specs.Inside.{RowsListed, PlacesWritten};
ghost use Rattle.frames.specs.FramePromise.{FramePromise};

use crate::answers::Sighted;
use crate::reach::Reach;
use frame_sizes::for_frame;
use lists::fill_unused;
use order::Refusal;

// A frame and a patch whose sizes fit each other, and the rows and columns at which the patch is tried. `Reach` takes the fields over one
// by one: here `rows` and `columns` may be none, and `Reach` has a place at least.
#[derive(Clone, Copy)]
struct Sought<'a, 'b> {
    samples: &'a [u16],
    height: usize,
    width: usize,
    pitch: usize,
    patch: &'b [u16],
    h: usize,
    k: usize,
    rows: usize,
    columns: usize,
    ghost fit: { SizesFit (length samples.now) height width pitch (length patch.now) h k (places_of height width h k) },
    ghost all_rows: { rows ≡ windows_of h height },
    ghost all_columns: { columns ≡ windows_of k width },
}

impl<'a, 'b> Sought<'a, 'b> {
    // Lists the places, if there are any.
    fn list_places(self, positions: &mut [u32]) -> usize
        requires { self.rows * self.columns ≤ length positions.old }
        ensures { RowsListed (matches_at self.entry.samples.now self.entry.pitch self.entry.patch.now self.entry.h self.entry.k) self.entry.width self.entry.columns self.entry.rows positions.old result positions.new }
    {
        if self.rows == 0 {
            return 0;
        }
        if self.columns == 0 {
            return 0;
        }
        let reach = Reach {
            frame: self.samples,
            pitch: self.pitch,
            width: self.width,
            h: self.h,
            k: self.k,
            rows: self.rows,
            columns: self.columns,
        };
        reach.search_patch(self.patch, positions)
    }

    // Lists the places, with "unused" behind them up to their number.
    fn write_places(self, positions: &mut [u32]) -> Sighted
        requires { self.rows * self.columns ≤ length positions.old }
        ensures { (result.places ≡ self.entry.rows * self.entry.columns) × PlacesWritten self.entry.samples.now self.entry.height self.entry.width self.entry.pitch self.entry.patch.now self.entry.h self.entry.k positions.old result.found positions.new }
    {
        let places = self.rows * self.columns;
        let found = self.list_places(positions);
        fill_unused(&mut positions[found..places]);
        Sighted { places, found }
    }
}

// Seeks a patch of h rows and k columns, packed, in a frame whose rows start a pitch apart: the places are listed, or nothing is stored.
// The parameters come one by one, in the order of the C call `tension_frame` and of `FramePromise`: callers have this function by them.
pub fn search_frame(
    samples: &[u16],
    height: usize,
    width: usize,
    pitch: usize,
    patch: &[u16],
    h: usize,
    k: usize,
    positions: &mut [u32],
) -> Result<Sighted, Refusal>
    ensures { FramePromise samples.now height width pitch patch.now h k positions.old result positions.new }
{
    let tries = for_frame(
        samples.len(),
        height,
        width,
        pitch,
        patch.len(),
        h,
        k,
        positions.len(),
    )?;
    let sought = Sought {
        samples,
        height,
        width,
        pitch,
        patch,
        h,
        k,
        rows: tries.rows,
        columns: tries.columns,
    };
    Ok(sought.write_places(positions))
}
