// The condition on the lengths of a pattern's tables. Follows docs/RULES.md, "Refusals", number 3. A comparison a table.

ghost use Rattle.std.specs.Prelude.{◌≡◌};
ghost use Rattle.order.specs.Refusals.{accepted, tables_verdict};
ghost use Rattle.order.specs.Answers.{answer_by};

use order::{Refusal, Table};

// 3: the first table that is too short. Four numbers, as `for_tables` gets them: a struct would be taken apart again in the next line.
pub(crate) fn check(
    m: usize,
    low: usize,
    high: usize,
    witness_i: usize,
    witness_j: usize,
) -> Result<(), Refusal>
    ensures { result ≡ answer_by (tables_verdict m low high witness_i witness_j accepted) tt }
{
    if low < m {
        return Err(Refusal::ShortTable(Table::Low));
    }
    if high < m {
        return Err(Refusal::ShortTable(Table::High));
    }
    if witness_i < m {
        return Err(Refusal::ShortTable(Table::WitnessI));
    }
    if witness_j < m {
        return Err(Refusal::ShortTable(Table::WitnessJ));
    }
    Ok(())
}
