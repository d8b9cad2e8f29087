// The test of one place: whether a list's sample lies between the samples of its neighbours as the pattern's does.
//
// Follows docs/RULES.md, "Test of a place". Where the two neighbours are one place, the pattern's value is equal there;
// otherwise it lies strictly between them. So a test reads no sample of the pattern: the table's entries say it all. An entry
// that is no place of the list counts as none, which makes the one look at the list's length serve for both. A test costs at
// most two comparisons and assumes nothing.

ghost use Rattle.std.specs.Prelude.{◌≡◌, ◌<◌, ◌≤◌, length};
ghost use Rattle.order.specs.EntryTest.{under_high_lem, test_by};

use crate::kinds::Place;
use crate::steps::Tested;

// The high neighbour's part of a test, after so many comparisons.
fn under_high(high: u16, v: &[i32], j: usize, spent: u32) -> Tested
    requires { (j < length v.now) × (spent ≤ 1) }
    ensures { result ≡ under_high_lem v.now high j spent }
{
    let above = usize::from(high);
    if v.len() <= above {
        return Tested::Passed(spent);
    }
    if v[j] < v[above] {
        return Tested::Passed(spent + 1);
    }
    Tested::Failed(spent + 1, Place(above))
}

// The test of place j of a list by the entries of that place's neighbours.
pub fn test_place(low: u16, high: u16, v: &[i32], j: Place) -> Tested
    ensures { result ≡ test_by v.now low high j.0 }
{
    let here = j.0;
    let below = usize::from(low);
    if v.len() <= here {
        return Tested::Passed(0);
    }
    if v.len() <= below {
        return under_high(high, v, here, 0);
    }
    if low == high {
        if v[here] == v[below] {
            return Tested::Passed(1);
        }
        return Tested::Failed(1, Place(below));
    }
    if v[below] < v[here] {
        return under_high(high, v, here, 1);
    }
    Tested::Failed(1, Place(below))
}
