// KEXINIT, written; and what is judged of a side's tables.
use crate::print::{MARK, Text, ends, full};
use crate::tables::{Tables, no_lists};
use door::Written;
use door::kex::harupesat_write_kex;
use std::io;
use std::io::Write;
use text::front;

const COOKIE: [u8; 16] = *b"sixteen.of.them.";

fn writes(to: &mut impl Write, t: Tables, cookie: &[u8], out: &mut [u8]) -> io::Result<Written> {
    write!(
        to,
        "write_kex{t} cookie {} into {}",
        Text(cookie),
        out.len()
    )?;
    Ok(harupesat_write_kex(
        t.server,
        t.kex,
        t.key,
        t.certificate,
        t.cipher,
        t.mac,
        t.compression,
        t.key_kinds,
        t.key_ids,
        t.cert_kinds,
        t.cert_ids,
        cookie,
        out,
    ))
}

// All that was written.
fn whole(to: &mut impl Write, t: Tables, out: &mut [u8]) -> io::Result<()> {
    let w = writes(to, t, &COOKIE, out)?;
    full(to, w, out)
}

fn client() -> Tables<'static> {
    Tables {
        kex: b"\x01\x09\x0A\x0B\x0C",
        key: b"\x00\x06",
        certificate: b"\x04",
        cipher: b"\x0A\x02",
        mac: b"\x02\x04",
        compression: b"\x00",
        ..no_lists(false)
    }
}

// The client's lists but key's; the second certificate row has no key row of its identity.
fn server() -> Tables<'static> {
    Tables {
        server: true,
        key: b"\x00\x04\x06\x01",
        key_kinds: b"\x04\x00",
        key_ids: &[7, 8],
        cert_kinds: b"\x04\x01",
        cert_ids: &[7, 9],
        ..client()
    }
}

pub fn lists(to: &mut impl Write) -> io::Result<()> {
    let mut exact = [MARK; 346];
    whole(to, client(), &mut exact)?;
    let mut less = [MARK; 345];
    whole(to, client(), &mut less)?;
    let mut more = [MARK; 390];
    whole(to, server(), &mut more)
}

// An empty KEXINIT has 62 bytes; 9 before 8.
pub fn rooms(to: &mut impl Write) -> io::Result<()> {
    let empty = no_lists(false);
    let mut more = [MARK; 63];
    whole(to, empty, &mut more)?;
    let mut exact = [MARK; 62];
    whole(to, empty, &mut exact)?;
    let mut less = [MARK; 61];
    whole(to, empty, &mut less)?;
    whole(
        to,
        Tables {
            kex: b"\x0D",
            ..empty
        },
        &mut less,
    )
}

// Where there is room for all.
fn roomy(to: &mut impl Write, t: Tables, cookie: &[u8]) -> io::Result<()> {
    let mut out = [MARK; 4096];
    let w = writes(to, t, cookie, &mut out)?;
    ends(to, w, &out)
}

// Each of a client's lists alone, the others empty.
fn alone<'a>(
    kex: &'a [u8],
    key: &'a [u8],
    certificate: &'a [u8],
    cipher: &'a [u8],
    mac: &'a [u8],
    compression: &'a [u8],
) -> [Tables<'a>; 6] {
    let empty = no_lists(false);
    [
        Tables { kex, ..empty },
        Tables { key, ..empty },
        Tables {
            certificate,
            ..empty
        },
        Tables { cipher, ..empty },
        Tables { mac, ..empty },
        Tables {
            compression,
            ..empty
        },
    ]
}

// "Each of 0 to 16 entries."
fn entries(to: &mut impl Write) -> io::Result<()> {
    let n = [0u8; 17];
    let most = front(&n, 16);
    roomy(to, no_lists(false), &COOKIE)?;
    let all = Tables {
        kex: most,
        key: most,
        certificate: most,
        cipher: most,
        mac: most,
        compression: most,
        ..no_lists(false)
    };
    roomy(to, all, &COOKIE)?;
    for t in alone(&n, &n, &n, &n, &n, &n) {
        roomy(to, t, &COOKIE)?;
    }
    Ok(())
}

// The last number of each kind, and one more.
fn last(to: &mut impl Write) -> io::Result<()> {
    let all = Tables {
        kex: b"\x0C",
        key: b"\x06",
        certificate: b"\x06",
        cipher: b"\x0A",
        mac: b"\x04",
        compression: b"\x00",
        ..no_lists(false)
    };
    roomy(to, all, &COOKIE)?;
    for t in alone(b"\x0D", b"\x07", b"\x07", b"\x0B", b"\x05", b"\x01") {
        roomy(to, t, &COOKIE)?;
    }
    Ok(())
}

// Rows of identity 7, so many in each column of identities.
fn row(
    to: &mut impl Write,
    server: bool,
    key_kinds: &[u8],
    keys: usize,
    cert_kinds: &[u8],
    certs: usize,
) -> io::Result<()> {
    let sevens = [7u32; 9];
    let t = Tables {
        key_kinds,
        key_ids: &sevens[..keys.min(9)],
        cert_kinds,
        cert_ids: &sevens[..certs.min(9)],
        ..no_lists(server)
    };
    roomy(to, t, &COOKIE)
}

// As key rows, then as certificate rows.
fn either(to: &mut impl Write, server: bool, kinds: &[u8], n: usize) -> io::Result<()> {
    row(to, server, kinds, n, &[], 0)?;
    row(to, server, &[], 0, kinds, n)
}

// Up to 8 rows, of five kinds, columns of one length.
fn columns(to: &mut impl Write) -> io::Result<()> {
    let kinds = [0u8; 9];
    let eight = front(&kinds, 8);
    row(to, true, eight, 8, eight, 8)?;
    either(to, true, &kinds, 9)?;
    either(to, true, front(&kinds, 1), 0)?;
    either(to, true, &[], 1)?;
    row(to, true, b"\x04", 1, b"\x04", 1)?;
    either(to, true, b"\x05", 1)
}

// One kind to an identity; and no rows of a client.
fn identities(to: &mut impl Write) -> io::Result<()> {
    row(to, true, b"\x02\x02", 2, b"\x02\x02", 2)?;
    either(to, true, b"\x02\x03", 2)?;
    row(to, true, b"\x02", 1, b"\x03", 1)?;
    either(to, false, b"\x02", 1)
}

// What is refused with 9, and beside it what is not.
pub fn tables(to: &mut impl Write) -> io::Result<()> {
    entries(to)?;
    last(to)?;
    columns(to)?;
    identities(to)?;
    roomy(to, no_lists(false), b"fifteen.of.them")?;
    roomy(to, no_lists(false), b"seventeen.of.them")
}
