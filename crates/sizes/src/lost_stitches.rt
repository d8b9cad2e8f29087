// The condition on a pattern's samples. Follows docs/RULES.md, "Lost stitches" and "Refusals", number 21. One look at all samples, and a
// second one up to the first lost stitch where there is one.

ghost use Rattle.std.specs.Prelude.{◌≡◌};
ghost use Rattle.order.specs.Refusals.{accepted, stitches_verdict};
ghost use Rattle.order.specs.Answers.{answer_by};

use order::Refusal;
use stitches::{first_lost, holds_lost};

// 21: the pattern's first lost stitch.
pub(crate) fn check(pattern: &[i32]) -> Result<(), Refusal>
    ensures { result ≡ answer_by (stitches_verdict pattern.now accepted) tt }
{
    if holds_lost(pattern) {
        return Err(Refusal::LostStitch(first_lost(pattern)));
    }
    Ok(())
}
