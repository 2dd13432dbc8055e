// The lists of `Preferred::DEFAULT` (src/negotiation.rs): for a caller to lend, in part or whole.
//
// Copyright 2016 Pierre-Étienne Meunier, licensed under the Apache License, Version 2.0 (NOTICE); changed: rewritten for
// lent slices and tables of numbers.
ghost use Rattle.std.specs.Prelude.{◌≡◌};
ghost use Rattle.answer.specs.Answer.{answered};
ghost use Rattle.judging.specs.Tables.{lent};
ghost use Rattle.preferred.specs.Own.{own_of};
ghost use Rattle.preferred.specs.Defaults.{defaults};

use super::Own;
use super::make::own_lists;
use answer::Cause;
use choice::Side;
use judging::Tables;

pub const KEX: [u8; 13] = [0, 1, 2, 3, 4, 5, 6, 7, 8, 9, 10, 11, 12];

pub const KEY: [u8; 7] = [0, 1, 2, 3, 4, 5, 6];

pub const CIPHER: [u8; 5] = [10, 6, 4, 3, 2];

pub const MAC: [u8; 4] = [1, 2, 3, 4];

pub const COMPRESSION: [u8; 1] = [0];

// The tables of a side that lends these, and its row tables.
pub fn default_tables<'a>(
    side: Side,
    key_kinds: &'a [u8],
    key_ids: &'a [u32],
    cert_kinds: &'a [u8],
    cert_ids: &'a [u32],
) -> Tables<'a>
    ensures { lent result ≡ defaults side key_kinds.now key_ids.now cert_kinds.now cert_ids.now }
{
    Tables {
        side,
        kex: &KEX,
        key: &KEY,
        certificate: &[],
        cipher: &CIPHER,
        mac: &MAC,
        compression: &COMPRESSION,
        key_kinds,
        key_ids,
        cert_kinds,
        cert_ids,
    }
}

// The own lists of such a side.
pub fn default_lists(
    side: Side,
    key_kinds: &[u8],
    key_ids: &[u32],
    cert_kinds: &[u8],
    cert_ids: &[u32],
) -> Result<Own, Cause>
    ensures { answered result ≡ own_of (defaults side key_kinds.now key_ids.now cert_kinds.now cert_ids.now) }
{
    own_lists(&default_tables(side, key_kinds, key_ids, cert_kinds, cert_ids))
}
