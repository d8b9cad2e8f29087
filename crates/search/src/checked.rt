// A search that was checked: a pattern, its own tables, a trace, and how many windows it has. Follows docs/RULES.md, "Sizes" and
// "Refusals". A type alone.

ghost use Rattle.search.specs.Inside.Asked.{Searchable};

#[derive(Clone, Copy)]
pub(crate) struct Checked<'a> {
    pub pattern: &'a [i32],
    pub low: &'a [u16],
    pub high: &'a [u16],
    pub witness_i: &'a [u16],
    pub witness_j: &'a [u16],
    pub trace: &'a [i32],
    pub windows: usize,
    pub ghost own: { Searchable pattern.now low.now high.now witness_i.now witness_j.now trace.now windows },
}
