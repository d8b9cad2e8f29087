// The neighbour tables of a list of grey levels, straight from the list: no sample is made of a level first.
//
// Follows docs/RULES.md, "Neighbours" and "Frames", and "Refusals" 1 to 3. The work is that on samples of 32 bits; but a level has half as
// many bits, so the compiler takes twice as many at once: m² / 2 steps by eights for the values and at most m² by sixteens for the places,
// and no working list. Sizes are looked at before the first store, so a refused call leaves both tables as they were.

#![tactic(auto)]

ghost use Rattle.std.specs.Prelude.{length};
ghost use Rattle.levels.specs.Levels.{levels};
ghost use Rattle.levels.specs.Promises.{NeighboursPromise};

use order::Refusal;
use tables::prepare_neighbours;

// Writes the neighbour tables of a list of grey levels, or refuses and writes nothing: 1, 2, and 3 on these two tables. No level is a
// lost stitch. Two tables and no struct: the promise names each, and `tables::prepare` has four.
pub fn level_neighbours(grey: &[u16], low: &mut [u16], high: &mut [u16]) -> Result<(), Refusal>
    ensures { NeighboursPromise (levels grey.now (length grey.now)) low.old high.old result low.new high.new }
{
    prepare_neighbours(grey, low, high)
}
