// What windows duel by: a pattern with its two witness tables, the trace that they lie in, and how many of them there are. The tables have
// an entry for each sample of the pattern at least. Follows docs/RULES.md, "Sizes" and "Duels". Types alone.

ghost use Rattle.std.specs.Prelude.{◌≡◌, ◌≤◌, ◌<◌, length};
ghost use Rattle.order.specs.Sizes.{pattern_limit, trace_limit, windows_of};
ghost use Rattle.duels.specs.Inside.Stacks.{Way};

use crate::codes::Codes;

// That the survivors buffer has room for all windows is asked of each method that writes there, and is no fact of the struct: the buffer
// is lent to one call after the other, and a Copy struct can't hold what is lent to be written.
#[derive(Clone, Copy)]
pub(crate) struct Field<'a> {
    pub pattern: &'a [i32],
    pub witness_i: &'a [u16],
    pub witness_j: &'a [u16],
    pub trace: &'a [i32],
    pub windows: usize,
    pub ghost some: { 0 < length pattern.now },
    pub ghost limit: { length pattern.now ≤ pattern_limit },
    pub ghost i_long: { length pattern.now ≤ length witness_i.now },
    pub ghost j_long: { length pattern.now ≤ length witness_j.now },
    pub ghost short: { length trace.now ≤ trace_limit },
    pub ghost all: { windows ≡ windows_of (length pattern.now) (length trace.now) },
}

// The same with what its windows meet by: the codes of their offset, or none where all of them agree.
#[derive(Clone, Copy)]
pub(crate) struct Armed<'a, 'b> {
    pub field: Field<'a>,
    pub codes: Option<&'b [Codes]>,
    pub ghost way: { Way field.pattern.now field.witness_i.now field.witness_j.now field.trace.now codes (λ c. c.now) },
}
