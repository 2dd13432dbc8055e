// Clear packets.
use crate::print::{Hex, MARK, TwoEnds};
use door::frame::{Frame, Sealed, harupesat_frame_read, harupesat_frame_write};
use std::io;
use std::io::Write;
use text::front;

fn frame(to: &mut impl Write, f: Frame) -> io::Result<()> {
    write!(
        to,
        ": what {} number {} offset {}",
        f.what, f.number, f.offset
    )?;
    write!(to, " need {} start {} len {}", f.need, f.start, f.len)?;
    write!(to, " end {} taken {}", f.end, f.taken)?;
    writeln!(to, " seqn {} bytes {}", f.seqn, f.bytes)
}

fn reads(to: &mut impl Write, s: &[u8], seqn: u32, bytes: u64) -> io::Result<()> {
    write!(to, "frame_read{} seqn {seqn} bytes {bytes}", Hex(s))?;
    frame(to, harupesat_frame_read(s, seqn, bytes))
}

fn need(to: &mut impl Write) -> io::Result<()> {
    reads(to, b"", 41, 100)?;
    reads(to, b"\x00\x04\x00", 41, 100)?;
    reads(to, b"\x00\x04\x00\x21", 41, 100)?;
    reads(to, b"\x00\x00\x00\x0Bpayload\x00\x00\x00", 41, 100)
}

fn refused(to: &mut impl Write) -> io::Result<()> {
    reads(to, b"\x00\x04\x00\x22", 41, 100)?;
    reads(to, b"\x00\x00\x00\x01\x02", 41, 100)
}

fn whole(to: &mut impl Write) -> io::Result<()> {
    reads(to, b"\x00\x00\x00\x01\x01", 41, 100)?;
    reads(to, b"\x00\x00\x00\x01\x00", 41, 100)?;
    reads(to, b"\x00\x00\x00\x00", 41, 100)?;
    reads(
        to,
        b"\x00\x00\x00\x0C\x04payload\x00\x00\x00\x00next",
        41,
        100,
    )?;
    reads(
        to,
        b"\x00\x00\x00\x0C\x04payload\x00\x00\x00\x00",
        4294967295,
        18446744073709551609,
    )
}

fn largest(to: &mut impl Write, s: &[u8]) -> io::Result<()> {
    write!(to, "frame_read 262180 of 262181")?;
    frame(to, harupesat_frame_read(front(s, 262180), 41, 100))?;
    write!(to, "frame_read 262181")?;
    frame(to, harupesat_frame_read(s, 41, 100))
}

// The last: a packet of the greatest length, without padding.
pub fn read(to: &mut impl Write) -> io::Result<()> {
    need(to)?;
    refused(to)?;
    whole(to)?;
    let mut s = [0u8; 262181];
    s[1] = 4;
    s[3] = 33;
    largest(to, &s)
}

fn sealed(to: &mut impl Write, w: Sealed) -> io::Result<()> {
    write!(to, ": what {} number {} len {}", w.what, w.number, w.len)?;
    write!(to, " seqn {} bytes {}", w.seqn, w.bytes)
}

fn writes(
    to: &mut impl Write,
    payload: &[u8],
    seqn: u32,
    bytes: u64,
    out: &mut [u8],
) -> io::Result<()> {
    write!(to, "frame_write{}", Hex(payload))?;
    write!(to, " seqn {seqn} bytes {bytes} into {}", out.len())?;
    sealed(to, harupesat_frame_write(payload, seqn, bytes, out))?;
    writeln!(to, " out{}", Hex(out))
}

pub fn write(to: &mut impl Write) -> io::Result<()> {
    let mut out = [MARK; 20];
    writes(to, b"", 41, 100, &mut out)?;
    let mut more = [MARK; 17];
    writes(to, b"payload", 41, 100, &mut more)?;
    let mut exact = [MARK; 16];
    writes(to, b"payload", 41, 100, &mut exact)?;
    let mut less = [MARK; 15];
    writes(to, b"payload", 41, 100, &mut less)?;
    let mut again = [MARK; 16];
    writes(to, b"p", 4294967295, 18446744073709551615, &mut again)
}

fn writes_zeros(to: &mut impl Write, payload: &[u8], out: &mut [u8]) -> io::Result<()> {
    write!(to, "frame_write zeros {}", payload.len())?;
    write!(to, " seqn 41 bytes 100 into {}", out.len())?;
    sealed(to, harupesat_frame_write(payload, 41, 100, out))?;
    writeln!(to, " out{}", TwoEnds(out))
}

fn zeros_written(to: &mut impl Write, zeros: &[u8], out: &mut [u8]) -> io::Result<()> {
    writes_zeros(to, zeros, out)?;
    writes_zeros(to, front(zeros, 262167), out)
}

// "The largest payload is 262,167." A refusal leaves the output as it is; 4 before 8.
pub fn write_largest(to: &mut impl Write) -> io::Result<()> {
    let zeros = [0u8; 262168];
    let mut more = [MARK; 262177];
    zeros_written(to, &zeros, &mut more)?;
    let mut less = [MARK; 262175];
    zeros_written(to, &zeros, &mut less)
}
