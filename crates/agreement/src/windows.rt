// The call on two windows: whether the witness tables let them stand beside each other.
//
// Follows docs/RULES.md, "Agree". It reads one entry at most, and takes it as it stands.

ghost use Rattle.std.specs.Prelude.{◌≡◌, ◌||◌, ◌≤◌, leb, eqb, length, get_or};
ghost use Rattle.order.specs.Sizes.{no_place};
ghost use Rattle.agreement.specs.Promises.{AgreePromise};

use order::{NONE, Offset, Refusal, Window};

// Whether windows at an offset agree, by the table of first entries.
fn agree_at(m: usize, witness_i: &[u16], offset: Offset) -> bool
    requires { m ≤ length witness_i.now }
    ensures { result ≡ (eqb offset.0 0 || (leb m offset.0 || eqb (get_or witness_i.now offset.0 0) no_place)) }
{
    let a = offset.0;
    a == 0 || m <= a || witness_i[a] == NONE
}

// Whether windows x and y of a pattern of m samples agree, by its witness tables. Windows that start together agree, and no
// entry is read for them. The tables are two slices, as callers keep them: of witness j the length alone is looked at, for refusal 3.
pub fn agree(
    m: usize,
    witness_i: &[u16],
    witness_j: &[u16],
    x: Window,
    y: Window,
) -> Result<bool, Refusal>
    ensures { AgreePromise m witness_i.now witness_j.now x.0 y.0 result }
{
    sizes::for_agreement(m, witness_i.len(), witness_j.len())?;
    Ok(agree_at(m, witness_i, Offset::between(x, y)))
}
