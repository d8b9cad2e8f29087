// What a search answers, as the host's bytes and its one number.
//
// Follows docs/RULES.md, "The C entry points", Result and Counts. One turn an entry; a refusal writes no byte.

ghost use Rattle.std.specs.Prelude.{◌≡◌};
ghost use Rattle.words.specs.Handed.{words_put};
ghost use Rattle.host_answers.specs.Results.{counts_list};
ghost use Rattle.host_answers.specs.Answers.{AnswerPut};

use crate::results::{ACCEPTED, result_of};
use order::{Counts, Refusal};
use words::put_words;

// Writes N, D, S, W, R and the number struck, as many as there is room for.
fn put_counts(c: Counts, counts: &mut [u8])
    ensures { counts.new ≡ words_put (counts_list c) counts.old }
{
    let list = [c.windows, c.duels, c.survivors, c.sweep, c.found, c.struck];
    put_words(&list, counts);
}

// Hands a search's answer and its two lists to the host. The buffers are three parameters, as the C call lends them: the struct of them
// belongs to `host_calls`, which lies above this crate. In line, where the lists are arrays and are copied whole: searches of 65,536
// samples take 0.98 of what they take otherwise.
#[inline(always)]
pub fn put_answer(
    answer: Result<Counts, Refusal>,
    kept: &[u32],
    listed: &[u32],
    survivors: &mut [u8],
    positions: &mut [u8],
    counts: &mut [u8],
) -> u64
    ensures { AnswerPut answer kept.now listed.now survivors.old positions.old counts.old result survivors.new positions.new counts.new }
{
    match answer {
        Err(why) => result_of(why),
        Ok(c) => {
            put_words(kept, survivors);
            put_words(listed, positions);
            put_counts(c, counts);
            ACCEPTED
        }
    }
}
