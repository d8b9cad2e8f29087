// Lost stitches: whether a list of samples holds one, and where its first one is. For patterns, which may hold none, and for traces, whose
// windows with one are struck.
//
// Follows docs/RULES.md, "Lost stitches". The first look takes the samples by fours and goes over all of them. The second does so block by
// block, and takes only the block with the first lost one sample by sample. Assumes nothing of its callers.

#![tactic(auto)]

ghost use Rattle.std.specs.Prelude.{◌≡◌, ◌≤◌, length};
ghost use Rattle.order.specs.Lost.{first_lost_lem, holds_lost_lem, is_lost};
ghost use Rattle.stitches.specs.Ends.{or_end};
ghost use Rattle.stitches.specs.Inside.{FreeWithin};

use order::LOST;

// Whether one of the samples is lost. It looks at all of them even after one that is: a loop that could end early would take them one by
// one, with which random and walk traces of 65,536 samples, 1 % of them lost, take 1.05 and 1.04 of the time of the same algorithm in C.
pub fn holds_lost(samples: &[i32]) -> bool
    ensures { result ≡ holds_lost_lem samples.now }
{
    let mut some = false;
    for sample in samples {
        some = some | (*sample == LOST);
    }
    some
}

// Whether a sample is the lost one.
fn equals_lost(sample: i32) -> bool
    ensures { result ≡ is_lost sample }
{
    sample == LOST
}

// The samples that are looked at together on the way to the first lost one.
const BLOCK: usize = 64;

// How many samples lie before the first block that holds a lost one, or before the last one, which is not whole.
fn free_blocks(samples: &[i32]) -> usize
    ensures { FreeWithin samples.now 0 result × (result ≤ length samples.now) }
{
    let whole = samples.len() - samples.len() % BLOCK;
    for i in (0..whole).step_by(BLOCK) {
        if holds_lost(&samples[i..i + BLOCK]) {
            return i;
        }
    }
    whole
}

// The place of the first sample that is lost; where none is, the number of samples. The very first is looked at by itself: lost stitches
// come in rows, and behind one of them the next is not worth a block. Behind the blocks it goes over places and not over samples: a look
// that passes over every second one can then be written down, and is refused for what it misses.
pub fn first_lost(samples: &[i32]) -> usize
    ensures { result ≡ or_end (first_lost_lem samples.now) (length samples.now) }
{
    if samples.len() == 0 {
        return 0;
    }
    if equals_lost(samples[0]) {
        return 0;
    }
    let free = free_blocks(samples);
    match (free..samples.len()).position(|i| equals_lost(samples[i])) {
        Some(k) => free + k,
        None => samples.len(),
    }
}
