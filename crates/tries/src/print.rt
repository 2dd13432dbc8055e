// What is printed: bytes and refusals.
use answer::{Cause, Refusal};
use say::Told;
use std::io::Write;
use std::{fmt, io};

// Bytes, in two digits to base 16 each.
#[derive(Clone, Copy, Debug)]
pub struct Hex<'a>(pub &'a [u8]);

impl fmt::Display for Hex<'_> {
    fn fmt<W: fmt::Write>(&self, f: &mut fmt::Formatter<W>) -> fmt::Result {
        for byte in self.0 {
            write!(f, "{byte:02x}")?;
        }
        Ok(())
    }
}

// By a writer.
pub fn refused(to: &mut impl Write, cause: Cause) -> io::Result<()> {
    writeln!(to, ": refused with {}", cause.number())
}

// By a reader.
pub fn refused_at(to: &mut impl Write, r: Refusal) -> io::Result<()> {
    writeln!(to, ": refused with {}", Told(r))
}
