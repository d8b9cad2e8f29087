// The one number that tells the host how a call ended.
//
// Follows docs/RULES.md, "The C entry points", Result. A handful of steps.

ghost use Rattle.std.specs.Prelude.{◌≡◌};
ghost use Rattle.host_answers.specs.Results.{refusal_result};

use order::Refusal;

// What an accepted call gives.
pub const ACCEPTED: u64 = 0;

// A refusal's number in the upper half, and in the lower its place, or the largest number that there is room for. Private functions of the
// host crates give this number too, by `Err(why) => result_of(why)` and not by `?`: `HostPrepare` and `HostSearch`, their contracts, speak
// of it.
pub fn result_of(why: Refusal) -> u64
    ensures { result ≡ refusal_result why }
{
    let number = why.number();
    let place = why.place().min(4294967295);
    (number * 4294967296 + place) as u64
}
