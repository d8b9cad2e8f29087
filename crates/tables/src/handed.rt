// A pattern and the four tables that were handed over with it, each of which has room for the pattern's entries. A type alone.

ghost use Rattle.std.specs.Prelude.{length};
ghost use Rattle.sizes.specs.Lengths.{Room};

#[derive(Clone, Copy)]
pub(crate) struct Handed<'a> {
    pub pattern: &'a [i32],
    pub low: &'a [u16],
    pub high: &'a [u16],
    pub witness_i: &'a [u16],
    pub witness_j: &'a [u16],
    pub ghost room: { Room (length pattern.now) (length low.now) (length high.now) (length witness_i.now) (length witness_j.now) },
}
