// What a search of a frame tells where it is not refused. Follows docs/RULES.md, "Frames". A type alone.

// The places tried, and how many of them are listed.
#[derive(Clone, Copy)]
pub struct Sighted {
    pub places: usize,
    pub found: usize,
}
