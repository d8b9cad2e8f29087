// What a C host lends: to preparation the buffers of a pattern's tables, and to a search these tables and the buffers of its answer.
//
// Follows docs/RULES.md, "The C entry points". Types alone, of bytes. A function that takes buffers promises that they stay the same
// references, so that its caller knows what became of the host's bytes. Three functions promise `SameBuffers` (tiers.rt): each lends the
// struct on, and its caller needs it to speak of the host's bytes.

// The buffers of a pattern's four tables, which preparation writes.
#[derive(Drop)]
pub(crate) struct TableBuffers<'a> {
    pub low: &'a mut [u8],
    pub high: &'a mut [u8],
    pub witness_i: &'a mut [u8],
    pub witness_j: &'a mut [u8],
}

// A pattern's four tables, which a search reads.
#[derive(Clone, Copy)]
pub(crate) struct Tables<'a> {
    pub low: &'a [u8],
    pub high: &'a [u8],
    pub witness_i: &'a [u8],
    pub witness_j: &'a [u8],
}

// The buffers of a search's answer, which it writes.
#[derive(Drop)]
pub(crate) struct Buffers<'a> {
    pub survivors: &'a mut [u8],
    pub positions: &'a mut [u8],
    pub counts: &'a mut [u8],
}
