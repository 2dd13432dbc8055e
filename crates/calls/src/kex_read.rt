// KEXINIT, read.
use crate::print::Text;
use crate::tables::{Tables, no_lists};
use door::kex::{Settled, harupesat_read_kex};
use std::io;
use std::io::Write;
use text::front;

fn settled(to: &mut impl Write, n: Settled) -> io::Result<()> {
    write!(
        to,
        ": what {} number {} offset {}",
        n.what, n.number, n.offset
    )?;
    write!(to, " kex {} key {} cipher {}", n.kex, n.key, n.cipher)?;
    write!(
        to,
        " client_mac {} server_mac {}",
        n.client_mac, n.server_mac
    )?;
    write!(to, " client_compression {}", n.client_compression)?;
    write!(to, " server_compression {}", n.server_compression)?;
    let certificate = u8::from(n.host_key_is_certificate);
    let ignored = u8::from(n.ignore_guessed);
    let strict = u8::from(n.strict_kex);
    write!(to, " host_key_is_certificate {certificate}")?;
    writeln!(to, " ignore_guessed {ignored} strict_kex {strict}")
}

fn reads(to: &mut impl Write, t: Tables, strict_agreed: bool, p: &[u8]) -> io::Result<()> {
    let strict = u8::from(strict_agreed);
    write!(to, "read_kex{t} strict_agreed {strict} payload {}", p.len())?;
    let n = harupesat_read_kex(
        t.server,
        t.kex,
        t.key,
        t.certificate,
        t.cipher,
        t.mac,
        t.compression,
        t.key_kinds,
        t.key_ids,
        t.cert_kinds,
        t.cert_ids,
        strict_agreed,
        p,
    );
    settled(to, n)
}

// A server with an RSA key, which settles on aes256-cbc and the two MACs.
fn server<'a>(kex: &'a [u8], key: &'a [u8]) -> Tables<'a> {
    Tables {
        kex,
        key,
        cipher: b"\x09",
        mac: b"\x02\x03",
        compression: b"\x00",
        key_kinds: b"\x04",
        key_ids: &[7],
        ..no_lists(true)
    }
}

// The same tables on either side; the two MACs are not the same.
fn sides(to: &mut impl Write, p: &[u8]) -> io::Result<()> {
    let t = Tables {
        cipher: b"\x02\x09",
        mac: b"\x02\x04\x03",
        ..server(b"\x01\x08\x0C", b"\x05\x06")
    };
    reads(to, t, false, p)?;
    let client = Tables {
        server: false,
        key_kinds: &[],
        key_ids: &[],
        ..t
    };
    reads(to, client, false, p)
}

// The guess and strict key exchange.
fn flags(to: &mut impl Write, p: &[u8]) -> io::Result<()> {
    reads(to, server(b"\x08\x01\x0C", b"\x06\x05"), false, p)?;
    reads(to, server(b"\x01\x08", b"\x06\x05"), false, p)?;
    reads(to, server(b"\x08\x01", b"\x05\x06"), false, p)?;
    reads(to, server(b"\x08\x0B", b"\x06"), false, p)?;
    reads(to, server(b"\x08", b"\x06"), true, p)
}

// 10, 11, 9.
fn no_name(to: &mut impl Write, p: &[u8]) -> io::Result<()> {
    reads(to, server(b"\x00", b"\x06"), false, p)?;
    reads(to, server(b"\x08", b"\x00"), false, p)?;
    reads(to, server(b"\x0D", b"\x06"), false, p)
}

// With lists that settle.
fn settling() -> Tables<'static> {
    server(b"\x08", b"\x06")
}

// 12, 13 for each direction, 14.
fn no_cipher(to: &mut impl Write, p: &[u8]) -> io::Result<()> {
    let t = settling();
    reads(
        to,
        Tables {
            cipher: b"\x0A",
            ..t
        },
        false,
        p,
    )?;
    reads(to, Tables { mac: b"\x02", ..t }, false, p)?;
    reads(to, Tables { mac: b"\x03", ..t }, false, p)?;
    reads(
        to,
        Tables {
            compression: &[],
            ..t
        },
        false,
        p,
    )
}

// 6, 2, 2, 5.
fn payloads(to: &mut impl Write, p: &[u8]) -> io::Result<()> {
    for n in [16, 17, 271, 273] {
        reads(to, settling(), false, front(p, n))?;
    }
    Ok(())
}

fn client_offered(to: &mut impl Write, p: &[u8]) -> io::Result<()> {
    let whole = front(p, 272);
    writeln!(to, "payload {}", Text(p))?;
    sides(to, whole)?;
    flags(to, whole)?;
    no_name(to, whole)?;
    no_cipher(to, whole)?;
    payloads(to, p)
}

// A client's KEXINIT of 272 bytes, follows 1, and one byte more; then one whose first list is not UTF-8.
pub fn client_offer(to: &mut impl Write) -> io::Result<()> {
    client_offered(
        to,
        b"\x14sixteen.of.them.\
        \x00\x00\x00\x4Cdiffie-hellman-group14-sha256,curve25519-sha256,kex-strict-c-v00@openssh.com\
        \x00\x00\x00\x14ssh-rsa,rsa-sha2-256\
        \x00\x00\x00\x15aes256-cbc,aes128-ctr\
        \x00\x00\x00\x1Dchacha20-poly1305@openssh.com\
        \x00\x00\x00\x1Bhmac-sha2-512,hmac-sha2-256\
        \x00\x00\x00\x1Dhmac-sha2-256-etm@openssh.com\
        \x00\x00\x00\x04none\
        \x00\x00\x00\x04none\
        \x00\x00\x00\x00\x00\x00\x00\x00\x01\x00\x00\x00\x00\x00",
    )?;
    reads(
        to,
        settling(),
        false,
        b"\x14sixteen.of.them.\x00\x00\x00\x01\xFF",
    )
}

// With an RSA key of identity 7, an Ed25519 key of identity 8, and an RSA certificate.
fn server_certified(to: &mut impl Write, identity: u32, p: &[u8]) -> io::Result<()> {
    let t = Tables {
        cipher: b"\x0A",
        mac: b"\x04",
        key_kinds: b"\x04\x00",
        key_ids: &[7, 8],
        cert_kinds: b"\x04",
        cert_ids: &[identity],
        ..server(b"\x01", b"\x04\x00")
    };
    reads(to, t, false, p)
}

fn client_certified(
    to: &mut impl Write,
    kex: &[u8],
    certificate: &[u8],
    strict_agreed: bool,
    p: &[u8],
) -> io::Result<()> {
    let t = Tables {
        kex,
        key: b"\x00",
        certificate,
        cipher: b"\x0A",
        mac: b"\x04",
        compression: b"\x00",
        ..no_lists(false)
    };
    reads(to, t, strict_agreed, p)
}

fn server_offered(to: &mut impl Write, p: &[u8]) -> io::Result<()> {
    writeln!(to, "payload {}", Text(p))?;
    client_certified(to, b"\x01\x0B", b"\x04", false, p)?;
    client_certified(to, b"\x01\x0C", &[], false, p)?;
    client_certified(to, b"\x01\x0C", &[], true, p)?;
    server_certified(to, 7, p)?;
    server_certified(to, 9, p)
}

// A server's KEXINIT of 221 bytes with a certificate's name, empty MAC lists, language "en", reserved 5.
pub fn server_offer(to: &mut impl Write) -> io::Result<()> {
    server_offered(
        to,
        b"\x14sixteen.of.them.\
        \x00\x00\x00\x2Ecurve25519-sha256,kex-strict-s-v00@openssh.com\
        \x00\x00\x00\x2Drsa-sha2-512-cert-v01@openssh.com,ssh-ed25519\
        \x00\x00\x00\x1Dchacha20-poly1305@openssh.com\
        \x00\x00\x00\x1Dchacha20-poly1305@openssh.com\
        \x00\x00\x00\x00\x00\x00\x00\x00\
        \x00\x00\x00\x04none\
        \x00\x00\x00\x04none\
        \x00\x00\x00\x02en\x00\x00\x00\x00\x00\x00\x00\x00\x05",
    )
}

// "KEXINIT payload over 262,176 bytes": zeros have an empty kex list. 9 before 1.
pub fn long(to: &mut impl Write) -> io::Result<()> {
    let zeros = [0u8; 262177];
    reads(to, settling(), false, front(&zeros, 262176))?;
    reads(to, settling(), false, &zeros)?;
    let t = Tables {
        cipher: &[],
        mac: &[],
        compression: &[],
        ..server(b"\x0D", &[])
    };
    reads(to, t, false, &zeros)
}
