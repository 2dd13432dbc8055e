// Bytes as a recorded line has them, and what is told compared with what was recorded.
ghost use Rattle.std.specs.Prelude.{◌<◌, ◌≤◌, length};

use crate::answers::Answer;
use std::fmt;
use std::fmt::Write;

// From so many on, equal bytes are told as a run.
const RUN: usize = 16;

// Bytes between quotes.
#[derive(Clone, Copy, Debug)]
pub struct Quoted<'a>(pub &'a [u8]);

// Where the run of the byte at `at` ends.
fn run_end(x: &[u8], at: usize) -> usize
    requires { at < length x.now }
    ensures { (at < result) × (result ≤ length x.now) }
{
    let byte = x[at];
    for i in at + 1..x.len() {
        if x[i] != byte {
            return i;
        }
    }
    x.len()
}

// Printable ASCII but space, `"`, `*` and the backslash.
fn plain(byte: u8) -> bool {
    byte.is_ascii_graphic() && !matches!(byte, b'"' | b'*' | b'\\')
}

impl fmt::Display for Quoted<'_> {
    fn fmt<W: fmt::Write>(&self, f: &mut fmt::Formatter<W>) -> fmt::Result {
        let x = self.0;
        f.write_str("\"")?;
        let mut i = 0;
        // Kept: no index is counted, `i` moves by a run.
        while i < x.len() {
            let byte = x[i];
            let end = run_end(x, i);
            if RUN <= end - i {
                write!(f, "\\{byte:02x}*{}.", end - i)?;
                i = end;
            } else {
                if plain(byte) {
                    f.write_char(char::from(byte))?;
                } else {
                    write!(f, "\\{byte:02x}")?;
                }
                i += 1;
            }
        }
        f.write_str("\"")
    }
}

// What was recorded and is not told yet. What is told otherwise is an error.
#[derive(Debug, Drop)]
struct Recorded<'a>(&'a [u8]);

impl fmt::Write for Recorded<'_> {
    fn write_str(&mut self, s: &str) -> fmt::Result {
        match self.0.strip_prefix(s.as_bytes()) {
            Some(rest) => {
                self.0 = rest;
                Ok(())
            }
            None => Err(fmt::Error),
        }
    }
}

// Whether an answer is told just as it was recorded.
pub fn agrees(recorded: &[u8], answer: &Answer) -> bool {
    let mut left = Recorded(recorded);
    write!(left, "{answer}").is_ok() && left.0.is_empty()
}
