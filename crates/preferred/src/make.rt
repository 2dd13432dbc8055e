// A side's own lists, as rows of the name table.
//
// Copyright 2016 Pierre-Étienne Meunier, licensed under the Apache License, Version 2.0 (NOTICE); changed: rewritten for
// lent slices and tables of numbers.
ghost use Rattle.std.specs.Prelude.{◌≡◌, true, ◌++◌, ◌+◌, ◌<◌, length, OnErr};
ghost use Rattle.answer.specs.Answer.{answered};
ghost use Rattle.names.specs.Tables.{names_of, first_row};
ghost use Rattle.names.specs.declared.Kind.TheVariants.{Kex, Key, Certificate};
ghost use Rattle.judging.specs.Tables.{lent, good_list, valid};
ghost use Rattle.filters.specs.Picked.{without};
ghost use Rattle.filters.specs.Made.{row_list, joined};
ghost use Rattle.preferred.specs.Own.{rows, key_list_rows, own_of, filled_own, extensions, other};

use super::Own;
use answer::Cause;
use choice::Side;
use filters::{RowList, certified, held, push, without};
use judging::Tables;
use names::Kind;

// ext-info-c, kex-strict-c-v00@openssh.com
const CLIENT_NAMES: [u8; 2] = [9, 11];

// ext-info-s, kex-strict-s-v00@openssh.com
const SERVER_NAMES: [u8; 2] = [10, 12];

// Those of both.
const EXTENSIONS: [u8; 4] = [9, 11, 10, 12];

fn row(kind: Kind, number: u8) -> u8
    requires { number < length (names_of kind) }
    ensures { result ≡ first_row kind + number }
{
    (kind.first_row() + usize::from(number)) as u8
}

fn join_rows(list: &mut RowList, kind: Kind, numbers: &[u8])
    requires { good_list kind numbers.now ≡ true }
    ensures { list.new ≡ joined list.old (rows kind numbers.now) }
{
    for &n in numbers {
        push(list, row(kind, n));
    }
}

fn all_rows(kind: Kind, numbers: &[u8]) -> RowList
    requires { good_list kind numbers.now ≡ true }
    ensures { result ≡ row_list (rows kind numbers.now) }
{
    let mut list = RowList::new();
    join_rows(&mut list, kind, numbers);
    list
}

// The extension names that only the other side writes.
fn others_names(side: Side) -> [u8; 2]
    ensures { result ≡ extensions (other side) }
{
    match side {
        Side::Client => SERVER_NAMES,
        Side::Server => CLIENT_NAMES,
    }
}

// Kex names stand first in the name table, so that a kex number is its row.
fn kex_rows(dropped: &[u8], kex: &[u8]) -> RowList
    requires { good_list Kex kex.now ≡ true }
    ensures { result ≡ row_list (rows Kex (without dropped.now kex.now)) }
{
    without(dropped, kex)
}

fn host_keys(certs: &[u8], keys: &[u8]) -> RowList
    requires certs { good_list Certificate certs.now ≡ true }
    requires keys { good_list Key keys.now ≡ true }
    ensures { result ≡ row_list (rows Certificate certs.now ++ rows Key keys.now) }
{
    let mut list = all_rows(Kind::Certificate, certs);
    join_rows(&mut list, Kind::Key, keys);
    list
}

fn key_rows(tables: &Tables) -> RowList
    requires { valid (lent tables.now) ≡ true }
    ensures { result ≡ row_list (key_list_rows (lent tables.now)) }
{
    match tables.side {
        Side::Client => host_keys(tables.certificate, tables.key),
        Side::Server => {
            let certs = certified(
                tables.key,
                tables.key_ids,
                tables.cert_kinds,
                tables.cert_ids,
            );
            let keys = held(tables.key_kinds, tables.key);
            host_keys(&certs, &keys)
        },
    }
}

// The lists of tables that are valid, put where `own` is, or 9, and it is what it was.
// Kept: list by list to where they stand, and not handed over whole, since six lists are moved by a call of memcpy, and the
// library for C needs none from outside.
pub fn fill_lists(tables: &Tables, own: &mut Own) -> Result<(), Cause>
    ensures lists { filled_own own.new result ≡ own_of (lent tables.now) }
    ensures kept { OnErr result (own.new ≡ own.old) }
{
    if !tables.valid() {
        return Err(Cause::BadTable);
    }
    own.kex_written = kex_rows(&others_names(tables.side), tables.kex);
    own.kex_chosen = kex_rows(&EXTENSIONS, tables.kex);
    own.key = key_rows(tables);
    own.cipher = all_rows(Kind::Cipher, tables.cipher);
    own.mac = all_rows(Kind::Mac, tables.mac);
    own.compression = all_rows(Kind::Compression, tables.compression);
    Ok(())
}

// The same, handed over.
pub fn own_lists(tables: &Tables) -> Result<Own, Cause>
    ensures { answered result ≡ own_of (lent tables.now) }
{
    let mut own = Own::new();
    fill_lists(tables, &mut own)?;
    Ok(own)
}
