// CHANNEL_OPEN_FAILURE.
use crate::print::{MARK, Text, ends, full};
use door::channel::{harupesat_fail, harupesat_unknown_type};
use std::io;
use std::io::Write;
use text::front;

fn fails(to: &mut impl Write, reason: u8, why: &[u8], out: &mut [u8]) -> io::Result<()> {
    write!(
        to,
        "fail 258 reason {reason} text {} into {}",
        Text(why),
        out.len()
    )?;
    let w = harupesat_fail(258, reason, why, out);
    full(to, w, out)
}

pub fn fail(to: &mut impl Write) -> io::Result<()> {
    let mut more = [MARK; 24];
    fails(to, 4, b"why", &mut more)?;
    let mut exact = [MARK; 22];
    fails(to, 4, b"why", &mut exact)?;
    let mut less = [MARK; 21];
    fails(to, 4, b"why", &mut less)?;
    let mut high = [MARK; 19];
    fails(to, 255, b"", &mut high)?;
    let mut low = [MARK; 20];
    fails(to, 0, b"\xFF", &mut low)
}

fn fails_long(to: &mut impl Write, why: &[u8], out: &mut [u8]) -> io::Result<()> {
    write!(
        to,
        "fail 258 reason 4 text of {} into {}",
        why.len(),
        out.len()
    )?;
    let w = harupesat_fail(258, 4, why, out);
    ends(to, w, out)
}

// "Failure text over 1,024"; 1 before 8.
pub fn fail_long(to: &mut impl Write) -> io::Result<()> {
    let why = [b'x'; 1025];
    let mut more = [MARK; 1044];
    fails_long(to, &why, &mut more)?;
    fails_long(to, front(&why, 1024), &mut more)?;
    let mut less = [MARK; 1042];
    fails_long(to, front(&why, 1024), &mut less)?;
    fails_long(to, &why, &mut less)
}

fn unknown(to: &mut impl Write, out: &mut [u8]) -> io::Result<()> {
    write!(to, "unknown_type 258 into {}", out.len())?;
    let w = harupesat_unknown_type(258, out);
    full(to, w, out)
}

pub fn unknown_type(to: &mut impl Write) -> io::Result<()> {
    let mut more = [MARK; 41];
    unknown(to, &mut more)?;
    let mut exact = [MARK; 39];
    unknown(to, &mut exact)?;
    let mut less = [MARK; 38];
    unknown(to, &mut less)
}
