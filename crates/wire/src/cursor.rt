// Bytes, numbers and strings, read at a cursor. Every position gets an answer, also past the end and near the largest
// usize: what is left is measured by differences, never by a sum that could wrap. A field is refused where it starts.
ghost use Rattle.std.specs.Prelude.{◌≡◌, ◌+◌, min, length, drop};
ghost use Rattle.wire.specs.Fields.{here, byte, word, run, string, end};
ghost use Rattle.wire.specs.Walk.{next_name};
ghost use Rattle.wire.specs.Answers.{got_byte, got_word, got_text, checked, next_of};

use crate::place::Place;
use answer::{Cause, Refusal};
use commas::name_end;

// How far a reader is in the slice that was lent.
// Kept: the slice is no field, though the two go together: no two answers have one meaning (byte_unique, word_unique,
// text_unique, name_unique), which would not hold of answers that differ in where equal bytes lie.
#[derive(Clone, Copy, Debug, PartialEq, Eq)]
pub struct Cursor {
    pub at: usize,
}

impl Cursor {
    pub fn u8(self, s: &[u8]) -> Result<(u8, Cursor), Refusal>
        ensures { got_byte s.now result ≡ byte (here s.now self.at) }
    {
        let at = self.at;
        if s.len() <= at {
            return Err(Cause::PastEnd.at(at));
        }
        Ok((s[at], Cursor { at: at + 1 }))
    }

    pub fn u32(self, s: &[u8]) -> Result<(u32, Cursor), Refusal>
        ensures { got_word s.now result ≡ word (here s.now self.at) }
    {
        let at = self.at;
        if s.len() < 4 {
            return Err(Cause::PastEnd.at(at));
        }
        if s.len() - 4 < at {
            return Err(Cause::PastEnd.at(at));
        }
        let n = u32::from_be_bytes([s[at], s[at + 1], s[at + 2], s[at + 3]]);
        Ok((n, Cursor { at: at + 4 }))
    }

    // A string's bytes, whatever they are.
    pub fn run(self, s: &[u8]) -> Result<(Place, Cursor), Refusal>
        ensures { got_text s.now result ≡ run (here s.now self.at) }
    {
        let (n, c) = self.u32(s)?;
        let start = c.at;
        // Kept: `as`, since std has no `From<u32>` for usize.
        let len = n as usize;
        if s.len() - start < len {
            return Err(Cause::PastEnd.at(self.at));
        }
        Ok((Place { start, len }, Cursor { at: start + len }))
    }

    // A string, as the Rust decodes one into a String.
    pub fn string(self, s: &[u8]) -> Result<(Place, Cursor), Refusal>
        ensures { got_text s.now result ≡ string (here s.now self.at) }
    {
        let (p, c) = self.run(s)?;
        if text::utf8(&s[p.start..c.at]) {
            return Ok((p, c));
        }
        Err(Cause::NotUtf8.at(self.at))
    }

    // Nothing is left: `ensure_end` of the Rust. Past the end nothing is left either.
    pub fn end(self, s: &[u8]) -> Result<(), Refusal>
        ensures { checked result ≡ end (here s.now self.at) }
    {
        if s.len() <= self.at {
            return Ok(());
        }
        Err(Cause::Trailing.at(self.at))
    }

    // The next name of a list that is lent whole. A comma at the very end ends the last name and starts none.
    pub fn name(self, list: &[u8]) -> Option<(Place, Cursor)>
        ensures { next_of list.now result ≡ next_name (here list.now self.at) }
    {
        let at = self.at;
        if list.len() <= at {
            return None;
        }
        let end = name_end(list, at);
        let place = Place {
            start: at,
            len: end - at,
        };
        if end < list.len() {
            return Some((place, Cursor { at: end + 1 }));
        }
        Some((place, Cursor { at: end }))
    }

    // What is left, as the part that it is; past the end no byte, at the end.
    pub fn rest(self, s: &[u8]) -> &[u8]
        ensures part { result.now ≡ drop self.at s.now }
        ensures block { result.ref_ptr.0 ≡ s.entry.ref_ptr.0 }
        ensures place { result.ref_ptr.1 ≡ s.entry.ref_ptr.1 + min self.at (length s.now) }
    {
        &s[self.at.min(s.len())..]
    }
}
