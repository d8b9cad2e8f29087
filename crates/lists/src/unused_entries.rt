// What follows a list in its buffer: "unused" up to the number of windows.
//
// Follows docs/RULES.md, "What is written". One store an entry, which the compiler makes stores of blocks.

ghost use Rattle.std.specs.Prelude.{◌≡◌, length, replicate};
ghost use Rattle.order.specs.Sizes.{unused};

use order::UNUSED;

// Writes "unused" into every entry of a part of a buffer.
pub fn fill_unused(part: &mut [u32])
    ensures { part.new ≡ replicate (length part.old) unused }
{
    part.fill(UNUSED);
}
