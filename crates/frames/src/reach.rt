// How far a patch of h rows and k columns is tried in a frame: at so many rows, and at each of them at so many columns. There is a place at
// least, and at all of them the patch lies inside the frame. Follows docs/RULES.md, "Frames". A type alone.

ghost use Rattle.frames.specs.Inside.{PatchInside};

// That positions has room for all places is asked of each method that lists there, and is no fact of the struct: the buffer is lent to one
// call after the other, and a Copy struct can't hold what is lent to be written.
#[derive(Clone, Copy)]
pub(crate) struct Reach<'a> {
    pub frame: &'a [u16],
    pub pitch: usize,
    pub width: usize,
    pub h: usize,
    pub k: usize,
    pub rows: usize,
    pub columns: usize,
    pub ghost inside: { PatchInside frame.now pitch width h k rows columns },
}
