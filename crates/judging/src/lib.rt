// Number 9 (document 01): what the local tables may be. They are judged before anything else is.
//
// Copyright 2016 Pierre-Étienne Meunier, licensed under the Apache License, Version 2.0 (NOTICE); changed: rewritten for
// lent slices and tables of numbers.
#![tactic(auto)]

ghost use Rattle.std.specs.Prelude.{◌≡◌};
ghost use Rattle.std.specs.Iterator.Adapters.{zip_first, zip_second};
ghost use Rattle.std.specs.Slice.Iter.{iter_rest};
ghost use Rattle.judging.specs.Tables.{lent, below, good_list, good_row_table, agrees, consistent, may_lend, good_lists, good_tables, valid};

use choice::Side;
use names::Kind;
use std::iter::Zip;
use std::slice::Iter;

// The most entries of a preference list.
pub const MOST_ENTRIES: usize = 16;

// The most key rows of a row table.
const MOST_KEY_ROWS: usize = 8;

// Ed25519, P256, P384, P521, RSA.
// Kept: a key row's kind is a number, as C lends it (harupesat_read_kex).
const KINDS: usize = 5;

// The local tables, all lent: six preference lists of numbers, and a server's two row tables (document 01, "Names and
// their numbers").
// Kept: lists are bytes, and a row table is two columns, as C lends them (harupesat_read_kex, harupesat_write_kex).
#[derive(Clone, Copy, Debug, PartialEq, Eq)]
pub struct Tables<'a> {
    pub side: Side,
    pub kex: &'a [u8],
    pub key: &'a [u8],
    pub certificate: &'a [u8],
    pub cipher: &'a [u8],
    pub mac: &'a [u8],
    pub compression: &'a [u8],
    pub key_kinds: &'a [u8],
    pub key_ids: &'a [u32],
    pub cert_kinds: &'a [u8],
    pub cert_ids: &'a [u32],
}

// A row table: the kinds and the identities of its key rows.
#[derive(Clone, Copy)]
struct KeyRows<'a> {
    kinds: &'a [u8],
    ids: &'a [u32],
}

fn below(numbers: &[u8], count: usize) -> bool
    ensures { result ≡ below count numbers.now }
{
    numbers.iter().all(|&n| usize::from(n) < count)
}

#[tactic(auto, unfolding(crate::specs::Tables::good_list, crate::specs::Tables::all))]
fn good_list(kind: Kind, numbers: &[u8]) -> bool
    ensures { result ≡ good_list kind numbers.now }
{
    numbers.len() <= MOST_ENTRIES && below(numbers, kind.count())
}

impl KeyRows<'_> {
    // It ends with the shorter column.
    fn rows(&self) -> Zip<Iter<'_, u8>, Iter<'_, u32>>
        ensures kinds { iter_rest (zip_first result) ≡ self.now.kinds.now }
        ensures ids { iter_rest (zip_second result) ≡ self.now.ids.now }
    {
        self.kinds.iter().zip(self.ids)
    }

    #[tactic(auto, unfolding(crate::specs::Tables::good_row_table, crate::specs::Tables::all))]
    fn good(&self) -> bool
        ensures { result ≡ good_row_table self.now.kinds.now self.now.ids.now }
    {
        self.kinds.len() == self.ids.len()
            && self.kinds.len() <= MOST_KEY_ROWS
            && below(self.kinds, KINDS)
    }

    // No key row has this identity but another kind.
    fn agrees(&self, kind: u8, id: u32) -> bool
        ensures { result ≡ agrees kind id self.now.kinds.now self.now.ids.now }
    {
        self.rows()
            .all(|(&other, &same)| same != id || other == kind)
    }

    fn consistent(&self, others: &KeyRows) -> bool
        ensures { result ≡ consistent self.now.kinds.now self.now.ids.now others.now.kinds.now others.now.ids.now }
    {
        self.rows().all(|(&kind, &id)| others.agrees(kind, id))
    }
}

impl Tables<'_> {
    // The tables are not refused with 9.
    #[tactic(auto, unfolding(crate::specs::Tables::valid, crate::specs::Tables::all))]
    pub fn valid(&self) -> bool
        ensures { result ≡ valid (lent self.now) }
    {
        self.good_lists() && self.good_tables() && self.may_lend()
    }

    #[tactic(auto, unfolding(crate::specs::Tables::good_lists, crate::specs::Tables::all))]
    fn good_lists(&self) -> bool
        ensures { let t = lent self.now in result ≡ good_lists t.kex t.key t.certificate t.cipher t.mac t.compression }
    {
        good_list(Kind::Kex, self.kex)
            && good_list(Kind::Key, self.key)
            && good_list(Kind::Certificate, self.certificate)
            && good_list(Kind::Cipher, self.cipher)
            && good_list(Kind::Mac, self.mac)
            && good_list(Kind::Compression, self.compression)
    }

    #[tactic(auto, unfolding(crate::specs::Tables::good_tables, crate::specs::Tables::all))]
    fn good_tables(&self) -> bool
        ensures { let t = lent self.now in result ≡ good_tables t.key_kinds t.key_ids t.cert_kinds t.cert_ids }
    {
        let keys = KeyRows {
            kinds: self.key_kinds,
            ids: self.key_ids,
        };
        let certs = KeyRows {
            kinds: self.cert_kinds,
            ids: self.cert_ids,
        };
        keys.good()
            && certs.good()
            && keys.consistent(&keys)
            && keys.consistent(&certs)
            && certs.consistent(&certs)
    }

    // A client lends no rows.
    #[tactic(auto, unfolding(crate::specs::Tables::may_lend))]
    fn may_lend(&self) -> bool
        ensures { let t = lent self.now in result ≡ may_lend t.side t.key_kinds t.cert_kinds }
    {
        match self.side {
            Side::Client => self.key_kinds.is_empty() && self.cert_kinds.is_empty(),
            Side::Server => true,
        }
    }
}
