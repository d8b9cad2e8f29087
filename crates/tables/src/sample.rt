// What a pattern can be made of: samples of 32 bits, or levels of 16, each of which stands for a whole number.
//
// Follows docs/RULES.md, "Relation" and "Neighbours". A comparison of two samples is the comparison of their numbers, and costs as much.

ghost use Rattle.std.specs.Prelude.{◌≡◌, ◌<◌, true, ℕ, ℤ, pos};
ghost use Rattle.std.specs.Int.Signed.{le_z};
ghost use Rattle.std.specs.Ordering.{int_cmp};
ghost use Rattle.tables.specs.Inside.Claims.{least, greatest};
ghost use Rattle.tables.specs.Inside.NearValues.{Within};
ghost use Rattle.tables.specs.Inside.Orders.{levels_compare};
ghost use Rattle.std.proofs.Common.{rules};

pub trait Sample: Copy + Ord {
    // The least and the greatest sample there can be: limits that nothing lies beyond.
    const LEAST: Self;

    const GREATEST: Self;

    // How many samples are passed over with one branch.
    const STRIDE: usize;

    ghost LEAST: { Self };

    ghost GREATEST: { Self };

    ghost STRIDE: { ℕ };

    // The number that a sample stands for.
    ghost value: { Self → ℤ };

    // Tells a proof that the sample lies within the limits; there is nothing to do.
    fn lies_within(self)
        ensures { Within (value LEAST) (value GREATEST) (value self) };

    ghost ordered: { (x y : Self) → Self.cmp x y ≡ int_cmp (value x) (value y) };

    ghost strides: { 0 < STRIDE };

    // No sample has more than 32 bits.
    ghost narrow: { (le_z least (value LEAST) ≡ true) × (le_z (value GREATEST) greatest ≡ true) };
}

impl Sample for i32 {
    const LEAST: i32 = -2147483648;

    const GREATEST: i32 = 2147483647;

    const STRIDE: usize = 8;

    ghost LEAST = { least };

    ghost GREATEST = { greatest };

    ghost STRIDE = { 8 };

    ghost value = { λ x. x };

    ghost ordered = { Prim.search rules };

    ghost strides = { Prim.search rules };

    ghost narrow = { Prim.search rules };

    fn lies_within(self) {}
}

// Levels stand in half as many bits, so the compiler takes twice as many at once.
impl Sample for u16 {
    const LEAST: u16 = 0;

    const GREATEST: u16 = 65535;

    const STRIDE: usize = 16;

    ghost LEAST = { 0 };

    ghost GREATEST = { 65535 };

    ghost STRIDE = { 16 };

    ghost value = { pos };

    ghost ordered = { levels_compare };

    ghost strides = { Prim.search rules };

    ghost narrow = { Prim.search rules };

    fn lies_within(self) {}
}
