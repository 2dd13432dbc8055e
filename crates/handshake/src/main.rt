// The first exchange of two ends on the default tables, the server holding an Ed25519 key: each writes its KEXINIT and
// frames it, reads the other's packet and settles; the two records are compared. Then two ends that share no cipher.
// What is written is held to the file stdout.
#![tactic(auto)]

use answer::{Cause, Refusal};
use choice::Side;
use framing::{Counters, Opened};
use judging::Tables;
use negotiation::Names;
use preferred::default_tables;
use preferred::defaults::CIPHER;
use say::{Settled, Told};
use std::io::Write;
use std::{fmt, io};
use text::front;

// Room for a KEXINIT of the default tables, and for its packet.
const ROOM: usize = 2048;

// The server's key rows.
const ED25519: [u8; 1] = [0];

const IDS: [u32; 1] = [1];

const START: Counters = Counters { seqn: 0, bytes: 0 };

// Why an end settled on nothing: it refused, or no whole packet came.
#[derive(Clone, Copy, Debug)]
enum Unsettled {
    Refused(Refusal),
    Needs(usize),
}

impl From<Refusal> for Unsettled {
    fn from(r: Refusal) -> Unsettled {
        Unsettled::Refused(r)
    }
}

impl From<Cause> for Unsettled {
    fn from(cause: Cause) -> Unsettled {
        Unsettled::Refused(cause.into())
    }
}

impl fmt::Display for Unsettled {
    fn fmt<W: fmt::Write>(&self, f: &mut fmt::Formatter<W>) -> fmt::Result {
        match *self {
            Unsettled::Refused(r) => write!(f, "refused with {}", Told(r)),
            Unsettled::Needs(n) => write!(f, "needs {n}"),
        }
    }
}

// By a writer. No byte was sent then.
fn refused(to: &mut impl Write, cause: Cause) -> io::Result<usize> {
    write!(to, "refused with {}", cause.number())?;
    Ok(0)
}

// A packet of the payload. Where it ends.
fn seals(to: &mut impl Write, payload: &[u8], packet: &mut [u8]) -> io::Result<usize> {
    write!(to, "sends a KEXINIT of {}", payload.len())?;
    match framing::write(payload, START, packet) {
        Ok(sealed) => {
            write!(to, " bytes in a packet of {}", sealed.total)?;
            Ok(sealed.total)
        }
        Err(cause) => refused(to, cause),
    }
}

// A side's KEXINIT in its first packet.
fn sends(
    to: &mut impl Write,
    tables: &Tables,
    cookie: &[u8],
    packet: &mut [u8],
) -> io::Result<usize> {
    let mut payload = [0u8; ROOM];
    match kexinit::write_kex(tables, cookie, &mut payload) {
        Ok(n) => seals(to, front(&payload, n), packet),
        Err(cause) => refused(to, cause),
    }
}

// What a side makes of the other's first packet.
fn reads(tables: &Tables, s: &[u8]) -> Result<Names, Unsettled> {
    match framing::read(s, START)? {
        Opened::Whole(p) => Ok(negotiation::read_kex(tables, false, p.payload(s)?)?),
        Opened::Need(n) => Err(Unsettled::Needs(n)),
    }
}

fn tells(to: &mut impl Write, before: &str, end: Result<Names, Unsettled>) -> io::Result<()> {
    match end {
        Ok(n) => write!(to, "{}", Settled(n, before.as_bytes())),
        Err(u) => write!(to, "{before}{u}"),
    }
}

// Refusals by their causes alone: each end reads the other's payload, where its list stands elsewhere.
fn compared(a: Result<Names, Unsettled>, b: Result<Names, Unsettled>) -> &'static str {
    match (a, b) {
        (Ok(m), Ok(n)) => {
            if m == n {
                "both settled, on equal records"
            } else {
                "both settled, on different records"
            }
        }
        (Err(Unsettled::Refused(q)), Err(Unsettled::Refused(r))) => {
            if q.cause == r.cause {
                "both refused, with equal numbers"
            } else {
                "both refused, with different numbers"
            }
        }
        (Ok(_), Err(_)) => "one end settled alone",
        (Err(Unsettled::Refused(_)), _) => "one end refused alone",
        (Err(Unsettled::Needs(_)), _) => "no whole packet came",
    }
}

fn exchange(to: &mut impl Write, client_cipher: &[u8], server_cipher: &[u8]) -> io::Result<()> {
    let client = Tables {
        cipher: client_cipher,
        ..default_tables(Side::Client, &[], &[], &[], &[])
    };
    let server = Tables {
        cipher: server_cipher,
        ..default_tables(Side::Server, &ED25519, &IDS, &[], &[])
    };
    let mut from_client = [0u8; ROOM];
    let mut from_server = [0u8; ROOM];
    write!(to, "\nclient ")?;
    let c = sends(to, &client, b"client's cookie.", &mut from_client)?;
    write!(to, "\nserver ")?;
    let s = sends(to, &server, b"server's cookie.", &mut from_server)?;
    let a = reads(&client, front(&from_server, s));
    let b = reads(&server, front(&from_client, c));
    tells(to, "\nclient ", a)?;
    tells(to, "\nserver ", b)?;
    writeln!(to, "\n{}", compared(a, b))
}

fn exchanges(to: &mut impl Write) -> io::Result<()> {
    write!(to, "The default tables, the server with an Ed25519 key:")?;
    exchange(to, &CIPHER, &CIPHER)?;
    write!(
        to,
        "\nThe client with chacha20-poly1305 alone, the server with aes128-ctr alone:"
    )?;
    exchange(to, b"\x0A", b"\x02")
}

fn main(rt: HostRuntime) -> io::Result<()> {
    exchanges(&mut io::writer(&rt))
}
