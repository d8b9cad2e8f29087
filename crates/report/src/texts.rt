// The text under way: bytes, texts and decimal numbers, each put behind what was put before. Follows docs/RULES.md, "The program". A byte
// takes one step; a number of d digits takes d calls.

ghost use Rattle.std.specs.Prelude.{◌≡◌, ◌∷◌, [], ◌++◌, ◌+◌, ◌≤◌, ◌<◌, length};
ghost use Rattle.report.specs.Decimals.{digit, decimal};
ghost use Rattle.report.specs.Promises.{text_room};
ghost use Rattle.report.specs.Texts.{newline};
ghost use Rattle.report.specs.Inside.{number_room, line_room};

use std::marker::Model;

// A buffer of so many bytes has room for every text.
pub const TEXT_ROOM: usize = 24576;

// What was put, at the front of a buffer. A contract sees these bytes alone. An array with its length, since there is no heap. Room is
// asked of each method: each puts another number of bytes.
#[derive(Drop)]
pub(crate) struct Text {
    buffer: [u8; TEXT_ROOM],
    length: usize,
}

impl Model for Text {
    ghost use Rattle.std.specs.Prelude.{ℕ, List, ◌≤◌, take};
    ghost use Rattle.report.specs.Promises.{text_room};

    ghost Value = { List ℕ };

    ghost view = { λ t. take t.length t.buffer };

    ghost invariant = { λ t. t.length ≤ text_room };
}

impl Text {
    pub(crate) fn new() -> Text
        ensures { result ≡ [] }
    {
        Text {
            buffer: [0; TEXT_ROOM],
            length: 0,
        }
    }

    pub(crate) fn as_bytes(&self) -> &[u8]
        ensures bytes { result.now ≡ self.now }
        ensures few { length self.now ≤ text_room }
    {
        &self.buffer[..self.length]
    }

    pub(crate) fn put_byte(&mut self, byte: u8)
        requires { length self.old < text_room }
        ensures { self.new ≡ self.old ++ byte ∷ [] }
    {
        self.buffer[self.length] = byte;
        self.length += 1;
    }

    pub(crate) fn put_text(&mut self, text: &[u8])
        requires { length self.old + length text.now ≤ text_room }
        ensures { self.new ≡ self.old ++ text.now }
    {
        let end = self.length + text.len();
        self.buffer[self.length..end].copy_from_slice(text);
        self.length = end;
    }

    fn put_digit(&mut self, d: usize)
        requires { (d < 10) × (length self.old < text_room) }
        ensures { self.new ≡ self.old ++ digit d ∷ [] }
    {
        self.put_byte(b'0' + d as u8);
    }

    // A number in decimal: the digits before its last one, and then that one. By hand, since the library's printing into a buffer answers a
    // `Result` that every caller would look at and none could get an `Err` of, and says its bytes in other words than specs/Decimals.antt.
    #[tactic(auto, using(crate::proofs::Numerals::decimal_low))]
    fn put_number(&mut self, v: usize)
        requires { length self.old + length (decimal v) ≤ text_room }
        ensures { self.new ≡ self.old ++ decimal v }
    {
        if v < 10 {
            return self.put_digit(v);
        }
        self.put_number(v / 10);
        self.put_digit(v % 10);
    }

    // A word and a number. No number of 64 bits has more than 20 digits.
    pub(crate) fn put_item(&mut self, word: &[u8], v: usize)
        requires { length self.old + length word.now + number_room ≤ text_room }
        ensures after { self.new ≡ self.old ++ (word.now ++ decimal v) }
        ensures few { length self.new ≤ length self.old + length word.now + number_room }
    {
        self.put_text(word);
        self.put_number(v);
    }

    // A number on a line of its own. No number of 32 bits has more than 10 digits.
    pub(crate) fn put_line(&mut self, v: u32)
        requires { length self.old + line_room ≤ text_room }
        ensures after { self.new ≡ self.old ++ (decimal v ++ newline) }
        ensures few { length self.new ≤ length self.old + line_room }
    {
        self.put_number(v as usize);
        self.put_byte(b'\n');
    }
}
