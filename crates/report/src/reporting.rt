// The program's core: the input's last recording is the trace, the one that ends where it begins the pattern; the pattern is prepared and
// the trace searched. The first refusal on the way becomes the line; otherwise the counts and the positions are the text.
//
// Follows docs/RULES.md, "The program". Takes the time of the four calls, and about 70 KB of stack: the samples, tables and buffers
// of the largest input, and the text, which is made whole before any byte of it is handed over.

ghost use Rattle.std.specs.Prelude.{◌≡◌, [], ◌+◌, ◌≤◌, length};
ghost use Rattle.report.specs.Texts.{text_of};
ghost use Rattle.report.specs.Inside.{refusal_room, Said};
ghost use Rattle.report.specs.Promises.{text_room, ReportPromise};

use crate::lines::{put_answer, put_refusal};
use crate::texts::Text;
use order::{INPUT_LIMIT, Refusal};
use recording::{Reading, read};
use search::search;
use tables::prepare;

// The samples that the buffers hold.
const PATTERN_ROOM: usize = 1024;

const TRACE_ROOM: usize = 2048;

// The lent buffer is shorter than the text, which has so many bytes: nothing is written.
#[derive(Clone, Copy)]
pub struct ShortText(pub usize);

// The line of an answer, if it is a refusal.
fn put_unanswered<T: Copy>(text: &mut Text, word: &[u8], answer: Result<T, Refusal>)
    requires { length text.old + length word.now + refusal_room ≤ text_room }
    ensures { Said text.old word.now answer text.new }
{
    if let Err(why) = answer {
        put_refusal(text, word, why);
    }
}

// Puts the text of an input. Four arrays for the tables, since `prepare` and `search` take four slices.
fn compose(input: &[u8], text: &mut Text)
    requires { text.old ≡ [] }
    ensures { text.new ≡ text_of input.now }
{
    if INPUT_LIMIT < input.len() {
        return put_refusal(text, b"input", Refusal::LongInput);
    }
    let mut trace = [0i32; TRACE_ROOM];
    let traced = read(input, &mut trace);
    let Ok(Reading { count: n, first }) = traced else {
        return put_unanswered(text, b"trace", traced);
    };
    let mut pattern = [0i32; PATTERN_ROOM];
    let patterned = read(&input[0..first], &mut pattern);
    let Ok(Reading { count: m, first: _ }) = patterned else {
        return put_unanswered(text, b"pattern", patterned);
    };
    let mut low = [0u16; PATTERN_ROOM];
    let mut high = [0u16; PATTERN_ROOM];
    let mut wi = [0u16; PATTERN_ROOM];
    let mut wj = [0u16; PATTERN_ROOM];
    let prepared = prepare(&pattern[0..m], &mut low, &mut high, &mut wi, &mut wj);
    let Ok(()) = prepared else {
        return put_unanswered(text, b"search", prepared);
    };
    let mut survivors = [0u32; TRACE_ROOM];
    let mut positions = [0u32; TRACE_ROOM];
    let searched = search(
        &pattern[0..m],
        &low,
        &high,
        &wi,
        &wj,
        &trace[0..n],
        &mut survivors,
        &mut positions,
    );
    let Ok(counts) = searched else {
        return put_unanswered(text, b"search", searched);
    };
    put_answer(text, counts, &positions);
}

// Writes the text of an input into a lent buffer, from byte 0 on, if it fits, and answers its length.
pub fn report(input: &[u8], out: &mut [u8]) -> Result<usize, ShortText>
    ensures { ReportPromise input.now out.old result out.new }
{
    let mut text = Text::new();
    compose(input, &mut text);
    let bytes = text.as_bytes();
    let length = bytes.len();
    if out.len() < length {
        return Err(ShortText(length));
    }
    out[..length].copy_from_slice(bytes);
    Ok(length)
}
