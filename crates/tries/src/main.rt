// The tried bytes of document 01 ("Tried bytes") through the code itself, a line for each, held to the file stdout: those
// that are not in the proved table, and P1 to P10 once more. Then where a reader refuses (document 02, No. 6).
#![tactic(auto)]

mod print;

use crate::print::{Hex, refused, refused_at};
use channels::OpenChannelMessage;
use choice::Side;
use framing::{Counters, Opened};
use judging::Tables;
use layouts::ChannelType;
use std::io;
use std::io::Write;
use text::front;

// "Payload 262,168: 4", and the packet of the largest payload.
const TOO_LARGE: usize = 262168;

const LARGEST_PACKET: usize = 262176;

const START: Counters = Counters { seqn: 0, bytes: 0 };

// The server's one key row, an Ed25519 key.
const KINDS: [u8; 1] = [0];

const IDS: [u32; 1] = [1];

// The byte of a packet that says its padding.
fn padding(packet: &[u8]) -> u8 {
    if packet.len() < 5 { 0 } else { packet[4] }
}

// Clear packets.
fn writes(to: &mut impl Write, payload: &[u8], out: &mut [u8]) -> io::Result<()> {
    write!(to, "payload {}", payload.len())?;
    match framing::write(payload, START, out) {
        Ok(sealed) => writeln!(
            to,
            ": padding {}, total {}, starts {}",
            padding(out),
            sealed.total,
            Hex(front(out, 6))
        ),
        Err(cause) => refused(to, cause),
    }
}

fn largest(to: &mut impl Write) -> io::Result<()> {
    let zeros = [0u8; TOO_LARGE];
    let mut out = [0u8; LARGEST_PACKET];
    writes(to, front(&zeros, 262167), &mut out)?;
    writes(to, &zeros, &mut out)
}

fn reads(to: &mut impl Write, s: &[u8]) -> io::Result<()> {
    write!(to, "{}", Hex(s))?;
    match framing::read(s, START) {
        Ok(Opened::Need(n)) => writeln!(to, ": need {n}"),
        Ok(Opened::Whole(p)) => writeln!(
            to,
            ": end {}, payload {}, takes {}",
            p.end, p.payload.len, p.taken
        ),
        Err(r) => refused_at(to, r),
    }
}

// P1 to P8.
fn packets(to: &mut impl Write) -> io::Result<()> {
    let mut out = [0u8; 24];
    writes(to, b"", &mut out)?;
    writes(to, b"\x00\x00\x00\x00\x00\x00\x00", &mut out)?;
    writes(to, b"\x00\x00\x00\x00\x00\x00\x00\x00", &mut out)?;
    reads(to, b"\x00\x00\x00\x01\x01")?;
    reads(to, b"\x00\x00\x00\x01\x02")?;
    reads(to, b"\x00\x00\x00\x00")?;
    reads(to, b"\x00\x04\x00\x21")?;
    reads(to, b"\x00\x04\x00\x22")
}

// A client's lists: curve25519-sha256, ssh-ed25519, a cipher, hmac-sha2-256, none.
fn tables(cipher: &[u8]) -> Tables<'_> {
    Tables {
        side: Side::Client,
        kex: b"\x01",
        key: b"\x00",
        certificate: &[],
        cipher,
        mac: b"\x04",
        compression: b"\x00",
        key_kinds: &[],
        key_ids: &[],
        cert_kinds: &[],
        cert_ids: &[],
    }
}

// KEXINIT.
fn client_writes(to: &mut impl Write, cipher: &[u8]) -> io::Result<()> {
    let mut payload = [0u8; 256];
    let mut out = [0u8; 256];
    match kexinit::write_kex(&tables(cipher), b"sixteen of them.", &mut payload) {
        Ok(n) => writes(to, front(&payload, n), &mut out),
        Err(cause) => refused(to, cause),
    }
}

fn kexinits(to: &mut impl Write) -> io::Result<()> {
    write!(to, "KEXINIT with chacha20: ")?;
    client_writes(to, b"\x0A")?;
    write!(to, "KEXINIT with aes128-ctr: ")?;
    client_writes(to, b"\x02")
}

// With one Ed25519 key.
fn server_reads(to: &mut impl Write, cipher: &[u8], p: &[u8]) -> io::Result<()> {
    let server = Tables {
        side: Side::Server,
        key_kinds: &KINDS,
        key_ids: &IDS,
        ..tables(cipher)
    };
    write!(to, "KEXINIT of {}", p.len())?;
    match negotiation::read_kex(&server, false, p) {
        Ok(_) => writeln!(to, ": settled"),
        Err(r) => refused_at(to, r),
    }
}

// P9.
fn short_kexinits(to: &mut impl Write) -> io::Result<()> {
    server_reads(to, b"\x02", b"\x14sixteen of them")?;
    server_reads(to, b"\x02", b"\x14sixteen of them.")
}

fn chacha20_reads(to: &mut impl Write, p: &[u8]) -> io::Result<()> {
    server_reads(to, b"\x0A", p)
}

// Before and behind the key list's first byte, in its length; the whole; a byte more.
fn cuts(to: &mut impl Write, p: &[u8]) -> io::Result<()> {
    chacha20_reads(to, front(p, 37))?;
    chacha20_reads(to, front(p, 38))?;
    chacha20_reads(to, front(p, 41))?;
    chacha20_reads(to, front(p, 182))?;
    chacha20_reads(to, p)
}

// A list that is bad, or shares no name: kex `a,,b` and `foo`, the second MAC list `none` under aes128-ctr, the second
// compression list `zlib`.
fn bad_lists(to: &mut impl Write) -> io::Result<()> {
    chacha20_reads(to, b"\x14sixteen of them.\x00\x00\x00\x04a,,b")?;
    chacha20_reads(to, b"\x14sixteen of them.\x00\x00\x00\x03foo")?;
    server_reads(
        to,
        b"\x02",
        b"\x14sixteen of them.\
        \x00\x00\x00\x11curve25519-sha256\
        \x00\x00\x00\x0Bssh-ed25519\
        \x00\x00\x00\x0Aaes128-ctr\
        \x00\x00\x00\x0Aaes128-ctr\
        \x00\x00\x00\x0Dhmac-sha2-256\
        \x00\x00\x00\x04none",
    )?;
    chacha20_reads(
        to,
        b"\x14sixteen of them.\
        \x00\x00\x00\x11curve25519-sha256\
        \x00\x00\x00\x0Bssh-ed25519\
        \x00\x00\x00\x1Dchacha20-poly1305@openssh.com\
        \x00\x00\x00\x1Dchacha20-poly1305@openssh.com\
        \x00\x00\x00\x0Dhmac-sha2-256\
        \x00\x00\x00\x0Dhmac-sha2-256\
        \x00\x00\x00\x04none\
        \x00\x00\x00\x04zlib",
    )
}

// On document 01's KEXINIT of 182 bytes.
fn kexinit_offsets(to: &mut impl Write) -> io::Result<()> {
    cuts(
        to,
        b"\x14sixteen of them.\
        \x00\x00\x00\x11curve25519-sha256\
        \x00\x00\x00\x0Bssh-ed25519\
        \x00\x00\x00\x1Dchacha20-poly1305@openssh.com\
        \x00\x00\x00\x1Dchacha20-poly1305@openssh.com\
        \x00\x00\x00\x0Dhmac-sha2-256\
        \x00\x00\x00\x0Dhmac-sha2-256\
        \x00\x00\x00\x04none\
        \x00\x00\x00\x04none\
        \x00\x00\x00\x00\x00\x00\x00\x00\x00\x00\x00\x00\x00\x00",
    )?;
    bad_lists(to)
}

// Channel opening.
fn opens(to: &mut impl Write, body: &[u8]) -> io::Result<()> {
    write!(to, "opening body of {}", body.len())?;
    match OpenChannelMessage::parse(body) {
        Ok(m) => {
            let typ = match m.typ {
                ChannelType::Session => "session",
                _ => "another type",
            };
            writeln!(
                to,
                ": {typ}, channel {}, window {}, maximum packet {}",
                m.recipient_channel, m.recipient_window_size, m.recipient_maximum_packet_size
            )
        }
        Err(r) => refused_at(to, r),
    }
}

// P10.
fn openings(to: &mut impl Write) -> io::Result<()> {
    opens(
        to,
        b"\x00\x00\x00\x07session\x00\x00\x00\x00\x00\x20\x00\x00\x00\x00\x80\x00",
    )?;
    opens(
        to,
        b"\x00\x00\x00\x07session\x00\x00\x00\x00\x00\x20\x00\x00\x00\x00\x80\x00\x00",
    )?;
    opens(
        to,
        b"\x00\x00\x00\x07session\x00\x00\x00\x00\x00\x20\x00\x00\x00\x00\x00\x00\x00",
    )
}

// `direct-tcpip`, maximum packet 1: host FF; host localhost, originator FF.
fn opening_offsets(to: &mut impl Write) -> io::Result<()> {
    opens(
        to,
        b"\x00\x00\x00\x0Cdirect-tcpip\x00\x00\x00\x00\x00\x00\x00\x00\x00\x00\x00\x01\x00\x00\x00\x01\xFF",
    )?;
    opens(
        to,
        b"\x00\x00\x00\x0Cdirect-tcpip\x00\x00\x00\x00\x00\x00\x00\x00\x00\x00\x00\x01\x00\x00\x00\x09localhost\x00\x00\x00\x16\x00\x00\x00\x01\xFF",
    )
}

fn unknown_type(to: &mut impl Write) -> io::Result<()> {
    let mut out = [0u8; 64];
    write!(to, "failure for an unknown type")?;
    match replies::unknown_type(258, &mut out) {
        Ok(n) => writeln!(to, ": {n} bytes, {}", Hex(front(&out, n))),
        Err(cause) => refused(to, cause),
    }
}

fn lines(to: &mut impl Write) -> io::Result<()> {
    largest(to)?;
    unknown_type(to)?;
    kexinits(to)?;
    packets(to)?;
    short_kexinits(to)?;
    openings(to)?;
    kexinit_offsets(to)?;
    opening_offsets(to)
}

fn main(rt: HostRuntime) -> io::Result<()> {
    lines(&mut io::writer(&rt))
}
