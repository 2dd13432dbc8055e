// What is printed: numbers, bytes, a writer's answer, and the lent output after it.
use door::Written;
use std::io::Write;
use std::{fmt, io};
use text::front;

// What stands in every lent output before a call.
pub const MARK: u8 = b'#';

// Numbers in decimal, a space before each.
#[derive(Clone, Copy, Debug)]
pub struct Numbers<'a, N>(pub &'a [N]);

impl<N: fmt::Display> fmt::Display for Numbers<'_, N> {
    fn fmt<W: fmt::Write>(&self, f: &mut fmt::Formatter<W>) -> fmt::Result {
        for n in self.0 {
            write!(f, " {n}")?;
        }
        Ok(())
    }
}

// Bytes in two digits to base 16, a space before each.
#[derive(Clone, Copy, Debug)]
pub struct Hex<'a>(pub &'a [u8]);

impl fmt::Display for Hex<'_> {
    fn fmt<W: fmt::Write>(&self, f: &mut fmt::Formatter<W>) -> fmt::Result {
        for b in self.0 {
            write!(f, " {b:02x}")?;
        }
        Ok(())
    }
}

// Bytes as text: a letter, a digit, most signs of a name and the mark stand for themselves.
#[derive(Clone, Copy, Debug)]
pub struct Text<'a>(pub &'a [u8]);

impl fmt::Display for Text<'_> {
    fn fmt<W: fmt::Write>(&self, f: &mut fmt::Formatter<W>) -> fmt::Result {
        for b in self.0 {
            match *b {
                MARK | b','..=b'[' | b']'..=b'z' => f.write_char(char::from(*b))?,
                _ => write!(f, "\\{b:02x}")?,
            }
        }
        Ok(())
    }
}

// A long output by its two ends.
#[derive(Clone, Copy, Debug)]
pub struct TwoEnds<'a>(pub &'a [u8]);

impl fmt::Display for TwoEnds<'_> {
    fn fmt<W: fmt::Write>(&self, f: &mut fmt::Formatter<W>) -> fmt::Result {
        let last = &self.0[self.0.len().saturating_sub(2)..];
        write!(f, "{} ..{}", Hex(front(self.0, 6)), Hex(last))
    }
}

// A writer's answer.
pub fn wrote(to: &mut impl Write, w: Written) -> io::Result<()> {
    write!(to, ": what {} number {} len {}", w.what, w.number, w.len)
}

// With a long output.
pub fn ends(to: &mut impl Write, w: Written, out: &[u8]) -> io::Result<()> {
    wrote(to, w)?;
    writeln!(to, " out{}", TwoEnds(out))
}

// With all of an output, as text.
pub fn full(to: &mut impl Write, w: Written, out: &[u8]) -> io::Result<()> {
    wrote(to, w)?;
    writeln!(to, " out {}", Text(out))
}

// With all of an output, in numbers.
pub fn bytes(to: &mut impl Write, w: Written, out: &[u8]) -> io::Result<()> {
    wrote(to, w)?;
    writeln!(to, " out{}", Hex(out))
}
