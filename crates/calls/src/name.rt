// Names and their numbers, the ciphers' columns, the default lists.
// Kept: a kind is a number, as harupesat_lookup and the others take it, so that one that is no kind's is asked for, too.
use crate::print::{MARK, Text, bytes, full, wrote};
use door::name::{
    Number, Truth, harupesat_built_in_integrity, harupesat_default_list, harupesat_lookup,
    harupesat_needs_mac, harupesat_spelling,
};
use std::io;
use std::io::Write;
use text::front;

fn found(to: &mut impl Write, n: Number) -> io::Result<()> {
    writeln!(
        to,
        ": what {} number {} value {}",
        n.what, n.number, n.value
    )
}

fn looks(to: &mut impl Write, kind: u8, name: &[u8]) -> io::Result<()> {
    write!(to, "lookup {kind} {}", Text(name))?;
    found(to, harupesat_lookup(kind, name))
}

// A number's name, and the number of that.
fn named(to: &mut impl Write, kind: u8, number: u8) -> io::Result<()> {
    let mut out = [MARK; 64];
    let w = harupesat_spelling(kind, number, &mut out);
    let name = front(&out, w.len);
    write!(to, "spelling {kind} {number}")?;
    wrote(to, w)?;
    write!(to, " out {}, looked up", Text(name))?;
    found(to, harupesat_lookup(kind, name))
}

// Each kind, to one past its last number.
pub fn names(to: &mut impl Write) -> io::Result<()> {
    for (kind, numbers) in [(0, 14), (1, 8), (2, 8), (3, 12), (4, 6), (5, 2), (6, 1)] {
        for number in 0..numbers {
            named(to, kind, number)?;
        }
    }
    Ok(())
}

pub fn unknown(to: &mut impl Write) -> io::Result<()> {
    looks(to, 0, b"none")?;
    looks(to, 3, b"none")?;
    looks(to, 4, b"none")?;
    looks(to, 1, b"ssh-rsa-cert-v01@openssh.com")?;
    looks(to, 2, b"ssh-rsa")?;
    looks(to, 1, b"ssh-rs")?;
    looks(to, 1, b"ssh-rsa1")?;
    looks(to, 6, b"none")
}

fn spells(to: &mut impl Write, kind: u8, number: u8, out: &mut [u8]) -> io::Result<()> {
    write!(to, "spelling {kind} {number} into {}", out.len())?;
    let w = harupesat_spelling(kind, number, out);
    full(to, w, out)
}

// ssh-ed25519 has 11 bytes; 9 before 8.
pub fn rooms(to: &mut impl Write) -> io::Result<()> {
    let mut more = [MARK; 12];
    spells(to, 1, 0, &mut more)?;
    let mut exact = [MARK; 11];
    spells(to, 1, 0, &mut exact)?;
    let mut less = [MARK; 10];
    spells(to, 1, 0, &mut less)?;
    spells(to, 1, 7, &mut less)
}

fn truth(to: &mut impl Write, t: Truth) -> io::Result<()> {
    let value = u8::from(t.value);
    writeln!(to, ": what {} number {} value {value}", t.what, t.number)
}

// Each cipher, to one past the last.
pub fn columns(to: &mut impl Write) -> io::Result<()> {
    for cipher in 0..12 {
        write!(to, "needs_mac {cipher}")?;
        truth(to, harupesat_needs_mac(cipher))?;
        write!(to, "built_in_integrity {cipher}")?;
        truth(to, harupesat_built_in_integrity(cipher))?;
    }
    Ok(())
}

fn default_list(to: &mut impl Write, kind: u8, out: &mut [u8]) -> io::Result<()> {
    write!(to, "default_list {kind} into {}", out.len())?;
    let w = harupesat_default_list(kind, out);
    bytes(to, w, out)
}

// Each kind, and one past the last.
pub fn defaults(to: &mut impl Write) -> io::Result<()> {
    for kind in 0..7 {
        let mut out = [MARK; 16];
        default_list(to, kind, &mut out)?;
    }
    Ok(())
}

// The ciphers' has 5 numbers; 9 before 8.
pub fn default_rooms(to: &mut impl Write) -> io::Result<()> {
    let mut exact = [MARK; 5];
    default_list(to, 3, &mut exact)?;
    let mut less = [MARK; 4];
    default_list(to, 3, &mut less)?;
    default_list(to, 6, &mut less)
}
