// Writing KEXINIT (RFC 4253 section 7.1): `write_kex` of src/negotiation.rs.
//
// Copyright 2016 Pierre-Étienne Meunier, licensed under the Apache License, Version 2.0 (NOTICE); changed: rewritten for
// lent slices and tables of numbers.
#![tactic(auto)]

ghost use Rattle.std.specs.Prelude.{◌≡◌};
ghost use Rattle.put.specs.Written.{written, buffer, put};
ghost use Rattle.put.proofs.RunLaws.{Ran};
ghost use Rattle.names.specs.Spelled.{spelled_by};
ghost use Rattle.judging.specs.Tables.{lent};
ghost use Rattle.filters.specs.Made.{shown};
ghost use Rattle.negotiation.specs.Written.{write_kex};
ghost use Rattle.kexinit.specs.Pieces.{once, head, twice, ending, pieces, size, answered, left};

use answer::Cause;
use filters::RowList;
use judging::Tables;
use lists::{put_rows, rows_length};
use names::Columns;
use names::tables::columns;
use preferred::{Own, fill_lists};
use put::{after, put_bytes, put_u8, put_u32};

// msg::KEXINIT
const KEXINIT: u8 = 20;

const COOKIE: usize = 16;

// All but the names: the message number, the cookie, ten lengths, the byte and the uint32 at the end.
const FIXED: usize = 62;

// What a KEXINIT is put together from.
#[derive(Clone, Copy)]
struct Pieces<'a> {
    names: Columns<'a, 'a>,
    own: &'a Own,
    cookie: &'a [u8],
}

impl Pieces<'_> {
    #[tactic(auto, unfolding(crate::specs::Pieces::size))]
    fn size(&self) -> usize
        ensures { result ≡ size (spelled_by self.now.names) self.now.own.now }
    {
        let own = self.own;
        let kex = rows_length(&self.names, &own.kex_written);
        let key = rows_length(&self.names, &own.key);
        let cipher = rows_length(&self.names, &own.cipher);
        let mac = rows_length(&self.names, &own.mac);
        let compression = rows_length(&self.names, &own.compression);
        FIXED + (kex + key) + 2 * (cipher + mac + compression)
    }

    fn put_list(&self, list: &RowList, out: &mut [u8], at: usize) -> usize
        ensures { Ran out.old at (once (spelled_by self.now.names) (shown list.now)) result out.new }
    {
        after(put_rows(&self.names, list, out, at), at)
    }

    fn put_head(&self, out: &mut [u8]) -> usize
        ensures { Ran out.old 0 (head (spelled_by self.now.names) self.now.own.now self.now.cookie.now) result out.new }
    {
        let p = after(put_u8(out, 0, KEXINIT), 0);
        let q = after(put_bytes(out, p, self.cookie), p);
        let s = self.put_list(&self.own.kex_written, out, q);
        self.put_list(&self.own.key, out, s)
    }

    // Client to server and server to client.
    fn put_twice(&self, list: &RowList, out: &mut [u8], at: usize) -> usize
        ensures { Ran out.old at (twice (spelled_by self.now.names) (shown list.now)) result out.new }
    {
        let p = self.put_list(list, out, at);
        self.put_list(list, out, p)
    }

    fn put(&self, out: &mut [u8]) -> usize
        ensures { Ran out.old 0 (pieces (spelled_by self.now.names) self.now.own.now self.now.cookie.now) result out.new }
    {
        let p = self.put_head(out);
        let q = self.put_twice(&self.own.cipher, out, p);
        let s = self.put_twice(&self.own.mac, out, q);
        let e = self.put_twice(&self.own.compression, out, s);
        put_ending(out, e)
    }

    // The room is tested for the whole, so that a refusal changes nothing and no put refuses.
    #[tactic(auto, using(crate::proofs::RoomLaws::own_laws))]
    fn write(&self, out: &mut [u8]) -> Result<usize, Cause>
        ensures answer { put result ≡ answered (spelled_by self.now.names) out.old self.now.own.now self.now.cookie.now }
        ensures bytes { out.new ≡ left (spelled_by self.now.names) out.old self.now.own.now self.now.cookie.now }
    {
        if out.len() < self.size() {
            return Err(Cause::NoRoom);
        }
        Ok(self.put(out))
    }
}

fn put_ending(out: &mut [u8], at: usize) -> usize
    ensures { Ran out.old at ending result out.new }
{
    let p = after(put_u32(out, at, 0), at);
    let q = after(put_u32(out, p, 0), p);
    let s = after(put_u8(out, q, 0), q);
    after(put_u32(out, s, 0), s)
}

// The cookie is lent, since random bytes are the caller's.
pub fn write_kex(tables: &Tables, cookie: &[u8], out: &mut [u8]) -> Result<usize, Cause>
    ensures answer { put result ≡ written out.old 0 (write_kex (lent tables.now) cookie.now) }
    ensures bytes { out.new ≡ buffer out.old 0 (write_kex (lent tables.now) cookie.now) }
{
    let mut own = Own::new();
    fill_lists(tables, &mut own)?;
    if cookie.len() != COOKIE {
        return Err(Cause::BadTable);
    }
    let names = columns();
    let whole = Pieces {
        names,
        own: &own,
        cookie,
    };
    whole.write(out)
}
