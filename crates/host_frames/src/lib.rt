// The search of a frame for a C host, with its answer as one number, and what an accepted call tells in numbers that the host lends.
//
// Follows docs/RULES.md, "Frames" and "The C entry points", Result and Frames. It is one call of the crate `frames`, on the host's own
// arrays: nothing is converted and no array is kept. The exported function is in the crate `tension_host`.

#![tactic(auto)]

ghost use Rattle.host_frames.specs.Promises.{HostFrame};

use host_answers::{ACCEPTED, result_of};

// Seeks a patch of h rows and k columns in a frame: its places are listed, and their number and how many were found are stored, or nothing
// is. The parameters are those of the exported `tension_frame`, one for one.
pub fn search(
    samples: &[u16],
    height: usize,
    width: usize,
    pitch: usize,
    patch: &[u16],
    h: usize,
    k: usize,
    positions: &mut [u32],
    places: &mut usize,
    found: &mut usize,
) -> u64
    ensures { HostFrame samples.now height width pitch patch.now h k positions.old places.old found.old result positions.new places.new found.new }
{
    match frames::search_frame(samples, height, width, pitch, patch, h, k, positions) {
        Err(why) => result_of(why),
        Ok(sighted) => {
            *places = sighted.places;
            *found = sighted.found;
            ACCEPTED
        }
    }
}
