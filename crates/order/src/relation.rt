// How two samples compare. Follows docs/RULES.md, "Relation". A call is the one comparison that the rules count.

ghost use Rattle.std.specs.Prelude.{◌≡◌};
ghost use Rattle.order.specs.Relations.{rel};

use std::cmp::Ordering;

// How a compares with b.
pub fn compare(a: i32, b: i32) -> Ordering
    ensures { result ≡ rel a b }
{
    a.cmp(&b)
}
