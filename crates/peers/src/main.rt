// The first packets of real SSH programs, one file each, read as a server and as a client with the default tables: what would
// be settled, or the refusal's number and offset. The files are named by the arguments; data/INDEX.tsv says where they come
// from, docs/PEERS.md what the outcome means. What is written is held to the file stdout.
#![tactic(auto)]

ghost use Rattle.std.specs.Prelude.{◌≤◌, length};

use choice::Side;
use framing::{Counters, Opened, Packet};
use judging::Tables;
use preferred::default_tables;
use say::{Settled, Told};
use std::env::FillError;
use std::fs::File;
use std::io;
use std::io::{Read, Write};
use std::rt::{Env, Files};
use text::front;

// The server holds a key of each kind, and no certificate.
const KINDS: [u8; 5] = [0, 1, 2, 3, 4];

const IDS: [u32; 5] = [1, 2, 3, 4, 5];

// As much of a file as is read.
const SPACE: usize = 4096;

// The longest name of a file.
const NAME: usize = 256;

fn settles(to: &mut impl Write, tables: &Tables, payload: &[u8]) -> io::Result<()> {
    match negotiation::read_kex(tables, false, payload) {
        Ok(n) => write!(to, "{}", Settled(n, b", ")),
        Err(r) => write!(to, " refuses with {}", Told(r)),
    }
}

// A packet that was read of a slice lies in it.
fn opens(to: &mut impl Write, s: &[u8], p: Packet) -> io::Result<()> {
    let payload = p.payload(s).unwrap_or(&[]);
    write!(to, " payload {}\n  our server", payload.len())?;
    settles(
        to,
        &default_tables(Side::Server, &KINDS, &IDS, &[], &[]),
        payload,
    )?;
    write!(to, "\n  our client")?;
    settles(
        to,
        &default_tables(Side::Client, &[], &[], &[], &[]),
        payload,
    )
}

fn reads(to: &mut impl Write, s: &[u8]) -> io::Result<()> {
    match framing::read(s, Counters { seqn: 0, bytes: 0 }) {
        Ok(Opened::Whole(p)) => opens(to, s, p),
        Ok(Opened::Need(n)) => write!(to, " needs {n}"),
        Err(r) => write!(to, " refused with {}", Told(r)),
    }
}

// Until the space is full, the file ends or a read fails: how many bytes stand at its start.
fn read_full(file: &mut impl Read, space: &mut [u8]) -> usize
    ensures { result ≤ length space.new }
{
    let mut done = 0;
    // Kept: no index is counted, a read gives as many bytes as it likes, and is not `read_exact`, which wants all of them.
    while done < space.len() {
        match file.read(&mut space[done..]) {
            Ok(0) | Err(_) => break,
            Ok(n) => done += n,
        }
    }
    done
}

// A file that cannot be opened counts as an empty one, as does one whose name is not UTF-8: std's paths are text.
fn read_file(rt: &impl Files, name: &[u8], space: &mut [u8]) -> usize
    ensures { result ≤ length space.new }
{
    let Ok(path) = str::from_utf8(name) else {
        return 0;
    };
    match File::open(rt, path) {
        Ok(mut file) => read_full(&mut file, space),
        Err(_) => 0,
    }
}

fn peer(rt: &impl Files, to: &mut impl Write, name: &[u8]) -> io::Result<()> {
    to.write_all(name)?;
    let mut space = [0u8; SPACE];
    let got = read_file(rt, name, &mut space);
    write!(to, ": bytes {got}")?;
    reads(to, front(&space, got))?;
    writeln!(to)
}

// A name that is longer counts as an empty one.
fn peers(rt: &(impl Env + Files), to: &mut impl Write) -> io::Result<()> {
    for i in 1..usize::MAX {
        let mut name = [0u8; NAME];
        match rt.arg(i, &mut name) {
            Ok(len) => peer(rt, to, front(&name, len))?,
            Err(FillError::TooLong) => peer(rt, to, b"")?,
            Err(FillError::NotPresent) => break,
        }
    }
    Ok(())
}

fn main(rt: HostRuntime) -> io::Result<()> {
    peers(&rt, &mut io::writer(&rt))
}
