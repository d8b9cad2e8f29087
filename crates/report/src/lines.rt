// The program's lines: a refusal's, the counts', and the listed positions, one to a line. Follows docs/RULES.md, "The program".
// Each takes a step a byte.

ghost use Rattle.std.specs.Prelude.{◌≡◌, ◌+◌, ◌*◌, ◌≤◌, ◌++◌, length, take};
ghost use Rattle.report.specs.Promises.{text_room};
ghost use Rattle.report.specs.Texts.{refusal_line, counts_line, lines};
ghost use Rattle.report.specs.Inside.{refusal_room, counts_room, line_room, Listed};

use crate::texts::Text;
use order::{Counts, Refusal};

// The line of a refusal.
#[tactic(auto, unfolding(crate::specs::Texts::refusal_line))]
pub(crate) fn put_refusal(text: &mut Text, word: &[u8], why: Refusal)
    requires { length text.old + length word.now + refusal_room ≤ text_room }
    ensures { text.new ≡ text.old ++ refusal_line word.now why }
{
    text.put_text(word);
    text.put_item(b" refusal ", why.number());
    text.put_item(b" place ", why.place());
    text.put_byte(b'\n');
}

// The counts of a search.
fn put_counts(text: &mut Text, counts: Counts)
    requires { length text.old + counts_room ≤ text_room }
    ensures after { text.new ≡ text.old ++ counts_line counts }
    ensures few { length text.new ≤ length text.old + counts_room }
{
    text.put_item(b"windows ", counts.windows as usize);
    text.put_item(b" duels ", counts.duels as usize);
    text.put_item(b" survivors ", counts.survivors as usize);
    text.put_item(b" sweep ", counts.sweep as usize);
    text.put_item(b" found ", counts.found as usize);
    text.put_byte(b'\n');
}

// The positions, one to a line.
#[tactic(auto, unfolding(crate::specs::Texts::lines))]
fn put_positions(text: &mut Text, positions: &[u32])
    requires { length text.old + line_room * length positions.now ≤ text_room }
    ensures { text.new ≡ text.old ++ lines positions.now }
{
    for position in positions {
        text.put_line(*position);
    }
}

// The counts, and then the positions that they count.
pub(crate) fn put_answer(text: &mut Text, counts: Counts, positions: &[u32])
    requires { Listed (length text.old) (length positions.now) counts.found }
    ensures { text.new ≡ text.old ++ (counts_line counts ++ lines (take counts.found positions.now)) }
{
    put_counts(text, counts);
    put_positions(text, &positions[..counts.found as usize]);
}
