// What a sweep tells, and the tests of one of its windows. Follows docs/RULES.md, "Sweep". Types alone.

// The comparisons that it made, and how many windows are listed.
#[derive(Clone, Copy)]
pub struct Swept {
    pub spent: usize,
    pub found: usize,
}

// Where the tests of one window end: E, the comparisons spent so far, and whether all its places passed. Either way both numbers count: no
// `Option` of them.
#[derive(Clone, Copy)]
pub struct Reached {
    pub reach: usize,
    pub spent: usize,
    pub whole: bool,
}
