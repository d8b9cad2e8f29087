// One window more at the end of a list.
//
// Follows docs/RULES.md, "Sweep": a window that passed all its places is listed. One store, or none.

ghost use Rattle.std.specs.Prelude.{◌≡◌};
ghost use Rattle.lists.specs.Lists.{listed, listed_count};

// Lists a window that passed all its places, if there is room, and answers how many are listed then. The count comes beside the buffer and
// not in a struct with it: the promises of this function, `listed` and `listed_count`, take the two apart, and C hands over the buffer alone.
pub fn list_one(list: &mut [u32], found: usize, x: u32, whole: bool) -> usize
    ensures { (list.new ≡ listed list.old found x whole) × (result ≡ listed_count list.old found whole) }
{
    if whole && found < list.len() {
        list[found] = x;
        return found + 1;
    }
    found
}
