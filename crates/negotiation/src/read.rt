// `read_kex` of the Rust, for both sides: a side flag for the trait's two implementations.
//
// Copyright 2016 Pierre-Étienne Meunier, licensed under the Apache License, Version 2.0 (NOTICE); changed: rewritten for
// lent slices and tables of numbers.
ghost use Rattle.std.specs.Prelude.{◌≡◌};
ghost use Rattle.judging.specs.Tables.{lent};
ghost use Rattle.preferred.specs.Own.{strict_name, other};
ghost use Rattle.negotiation.specs.Read.{got_names, read_kex};

use crate::Names;
use crate::rows::record;
use answer::{Cause, Refusal};
use choice::Side;
use judging::Tables;
use names::tables::columns;
use preferred::{Own, fill_lists};
use stages::Reading;
use wire::Cursor;

// The longest KEXINIT that is read.
const MAXIMUM_KEXINIT: usize = 262176;

// The message number and the cookie, neither of them checked, stand before the lists.
const FIRST_LIST: usize = 17;

// The kex numbers by which a client and a server ask for strict key exchange.
const CLIENT_STRICT: u8 = 11;

const SERVER_STRICT: u8 = 12;

fn strict_name(side: Side) -> u8
    ensures { result ≡ strict_name side }
{
    match side {
        Side::Client => CLIENT_STRICT,
        Side::Server => SERVER_STRICT,
    }
}

fn other(side: Side) -> Side
    ensures { result ≡ other side }
{
    match side {
        Side::Client => Side::Server,
        Side::Server => Side::Client,
    }
}

// What this side settles on with the peer that sent `p`. All tables are judged, whatever the side uses of them.
pub fn read_kex(tables: &Tables, strict_agreed: bool, p: &[u8]) -> Result<Names, Refusal>
    ensures { got_names result ≡ read_kex (lent tables.now) strict_agreed p.now }
{
    let mut own = Own::new();
    fill_lists(tables, &mut own)?;
    if MAXIMUM_KEXINIT < p.len() {
        return Err(Cause::TooLong.at(0));
    }
    if p.len() < FIRST_LIST {
        return Err(Cause::Inconsistent.at(0));
    }
    let side = tables.side;
    let asked = tables.kex.contains(&strict_name(side));
    let names = columns();
    let reading = Reading {
        names,
        side,
        kex: &own.kex_chosen,
        key: &own.key,
        cipher: &own.cipher,
        mac: &own.mac,
        compression: &own.compression,
        payload: p,
    };
    let first = Cursor { at: FIRST_LIST };
    let (rows, follows) = reading.read_rows(asked, strict_name(other(side)), strict_agreed, first)?;
    Ok(record(rows, follows))
}
