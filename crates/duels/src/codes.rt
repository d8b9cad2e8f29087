// How the pattern compares with itself at each offset's witness, worked out once for all duels: a duel then looks at two samples of the
// trace and two bytes, and at no sample of the pattern.
//
// Follows docs/RULES.md, "Duels". One turn an offset, of two comparisons. Two entries tell a witness if both places lie inside the
// pattern, also so many places on as the offset says, and compare otherwise there. A duel may rely on that: tables with other entries
// than these and none are not fought with.

ghost use Rattle.std.specs.Prelude.{◌≡◌, true, ◌<◌, ◌≤◌, length};
ghost use Rattle.order.specs.Sizes.{pattern_limit};
ghost use Rattle.order.specs.Relations.{rel};
ghost use Rattle.duels.specs.Inside.Codes.{code, Looked, CodedTo, NoneBelow};

use crate::answers::Unfought;
use crate::field::Field;
use order::{NONE, Offset};

// How a compares with b, as a number: 0 less, 1 equal, 2 greater. A number, since the machine adds it up from one comparison with no
// branch. An Ordering takes it two steps more in each duel, with which searches of sawtooth traces took up to 1.12 of their time.
pub(crate) fn code_between(a: i32, b: i32) -> u8
    ensures { result ≡ code (rel a b) }
{
    u8::from(b <= a) + u8::from(b < a)
}

// How a witness's two places compare in the older window and in the newer one, by the pattern.
#[derive(Clone, Copy)]
pub(crate) struct Codes {
    pub older: u8,
    pub newer: u8,
}

impl Codes {
    // Where the first entry is none nobody looks. No `Option`: there `meet` answers before it takes the codes.
    pub(crate) const UNSEEN: Codes = Codes { older: 0, newer: 0 };
}

// The codes of offset a by its two entries, or none if these name a place and tell no witness.
fn codes_of(pattern: &[i32], a: Offset, i: u16, j: u16) -> Option<Codes>
    requires { (a.0 < length pattern.now) × (length pattern.now ≤ pattern_limit) }
    ensures { Looked pattern.now a.0 i j result }
{
    let s = usize::from(i);
    let t = usize::from(j);
    let room = pattern.len() - a.0;
    if room <= s.max(t) {
        if i == NONE {
            return Some(Codes::UNSEEN);
        }
        return None; // a place outside
    }
    let older = code_between(pattern[a.0 + s], pattern[a.0 + t]);
    let newer = code_between(pattern[s], pattern[t]);
    if older == newer {
        return None; // alike at both
    }
    Some(Codes { older, newer })
}

// Writes the codes of all offsets, or tells the first whose entries name a place and tell no witness. By number: the offset is told where
// its entries tell no witness, and both tables may be longer than the codes. Over `codes.iter_mut().zip(..)` no invariant can name the
// codes, which are lent out, and the goal `returns` stays open.
pub(crate) fn write_codes<'a>(field: Field<'a>, codes: &mut [Codes]) -> Result<(), Unfought>
    requires { length codes.old ≡ length field.pattern.now }
    ensures { CodedTo field.entry.pattern.now field.entry.witness_i.now field.entry.witness_j.now codes.new result }
{
    for (a, code) in codes.iter_mut().enumerate() {
        let Some(told) = codes_of(
            field.pattern,
            Offset(a),
            field.witness_i[a],
            field.witness_j[a],
        ) else {
            return Err(Unfought::Untold(a));
        };
        *code = told;
    }
    Ok(())
}

// Whether no offset below m has an entry that names a place. It looks at all of them even after one that does: a loop that could end early
// would take them one by one. Beside `holds_lost` (stitches): one for both would be public, generic in type and value, for a loop of one
// line.
pub(crate) fn none_told(witness_i: &[u16], m: usize) -> bool
    requires { m ≤ length witness_i.now }
    ensures { result ≡ true → NoneBelow witness_i.now m }
{
    let mut all = true;
    for i in &witness_i[..m] {
        all = all & (*i == NONE);
    }
    all
}
