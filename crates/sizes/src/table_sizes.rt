// A pattern's length, its samples and the lengths of its tables. The length has a call of its own, for a caller that converts its samples
// first and has to know that they fit.
//
// Follows docs/RULES.md, "Refusals", numbers 1, 2, 21 and 3, tried in this order. One look at the pattern, and a handful of comparisons.

ghost use Rattle.std.specs.Prelude.{◌≡◌};
ghost use Rattle.order.specs.Refusals.{accepted, pattern_verdict, prepare_verdict, agree_verdict};
ghost use Rattle.order.specs.Answers.{answer_by};

use crate::{lost_stitches, short_tables};
use order::{PATTERN_LIMIT, Refusal};

// 1 and 2: the pattern's length.
pub fn for_pattern(m: usize) -> Result<(), Refusal>
    ensures { result ≡ answer_by (pattern_verdict m accepted) tt }
{
    if m == 0 {
        return Err(Refusal::EmptyPattern);
    }
    if PATTERN_LIMIT < m {
        return Err(Refusal::LongPattern(m));
    }
    Ok(())
}

// A pattern, and the lengths of its four tables, in entries. A caller that has not all four gives the pattern's length for those that it
// hasn't. Numbers and no slices, since a C host's bytes are looked at before any list of entries is made.
pub fn for_tables(
    pattern: &[i32],
    low: usize,
    high: usize,
    witness_i: usize,
    witness_j: usize,
) -> Result<(), Refusal>
    ensures { result ≡ answer_by (prepare_verdict pattern.now low high witness_i witness_j) tt }
{
    let m = pattern.len();
    for_pattern(m)?;
    lost_stitches::check(pattern)?;
    short_tables::check(m, low, high, witness_i, witness_j)
}

// A pattern's length alone, and those of its witness tables.
pub fn for_agreement(m: usize, witness_i: usize, witness_j: usize) -> Result<(), Refusal>
    ensures { result ≡ answer_by (agree_verdict m witness_i witness_j) tt }
{
    for_pattern(m)?;
    short_tables::check(m, m, m, witness_i, witness_j)
}
