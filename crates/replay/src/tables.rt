// A side's tables as a line has them: the side, then ten lists in the order of the fields of `judging::Tables`.
ghost use Rattle.std.specs.Prelude.{◌≤◌, length};

use crate::reader::Reader;
use choice::Side;
use judging::Tables;
use wire::{Cursor, Place};

// The most rows of identities.
pub const ROWS: usize = 8;

// The side, and the lists' places in the space.
#[derive(Clone, Copy, Debug)]
pub struct Lists {
    pub side: Side,
    pub places: [Place; 10],
}

// The part of the space at a place that was read.
pub fn part(space: &[u8], p: Place) -> &[u8] {
    p.show(space).unwrap_or(&[])
}

fn read_side(line: &[u8], r: Reader) -> Option<(Side, Reader)> {
    if let Some(client) = r.word(line, b"client ") {
        return Some((Side::Client, client));
    }
    Some((Side::Server, r.word(line, b"server ")?))
}

pub fn read_lists(line: &[u8], r: Reader) -> Option<(Lists, Reader)> {
    let (side, mut r) = read_side(line, r)?;
    let mut places = [Place { start: 0, len: 0 }; 10];
    for place in places.iter_mut() {
        (*place, r) = r.bytes(line)?;
    }
    if rows(places[7]) && rows(places[9]) {
        return Some((Lists { side, places }, r));
    }
    None
}

// Identities of up to eight rows, four bytes each.
fn rows(p: Place) -> bool {
    p.len % 4 == 0 && p.len <= 4 * ROWS
}

// As many as stand there, or have room.
fn identities<'a>(s: &[u8], ids: &'a mut [u32]) -> &'a [u32]
    ensures within { length result.now ≤ length ids.old }
{
    let mut c = Cursor { at: 0 };
    for n in 0..ids.len() {
        let Ok((id, next)) = c.u32(s) else {
            return &ids[..n];
        };
        ids[n] = id;
        c = next;
    }
    ids
}

impl Lists {
    // The tables, their identities in the room that is lent for them.
    pub fn lend<'a>(
        self,
        space: &'a [u8],
        key_ids: &'a mut [u32],
        cert_ids: &'a mut [u32],
    ) -> Tables<'a> {
        let p = self.places;
        Tables {
            side: self.side,
            kex: part(space, p[0]),
            key: part(space, p[1]),
            certificate: part(space, p[2]),
            cipher: part(space, p[3]),
            mac: part(space, p[4]),
            compression: part(space, p[5]),
            key_kinds: part(space, p[6]),
            key_ids: identities(part(space, p[7]), key_ids),
            cert_kinds: part(space, p[8]),
            cert_ids: identities(part(space, p[9]), cert_ids),
        }
    }
}
