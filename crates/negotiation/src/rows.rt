// The record that chosen rows come to: numbers by place in their kinds.
//
// Copyright 2016 Pierre-Étienne Meunier, licensed under the Apache License, Version 2.0 (NOTICE); changed: rewritten for
// lent slices and tables of numbers.
ghost use Rattle.std.specs.Prelude.{◌≡◌};
ghost use Rattle.negotiation.specs.Rows.{key_place, recorded};

use crate::{Flags, Names};
use names::{
    CipherId, CompressionId, FIRST_CERTIFICATE, FIRST_CIPHER, FIRST_COMPRESSION, FIRST_KEY,
    FIRST_MAC, KexId, KeyId, MacId,
};
use stages::{Rows, number};

fn key_number(row: u8) -> u8
    ensures { result ≡ key_place row }
{
    if FIRST_CERTIFICATE <= row {
        return number(row, FIRST_CERTIFICATE);
    }
    number(row, FIRST_KEY)
}

pub fn record(k: Rows, follows: bool) -> Names
    ensures { result ≡ recorded k follows }
{
    let flags = Flags {
        host_key_is_certificate: FIRST_CERTIFICATE <= k.key,
        ignore_guessed: follows & !k.guessed,
        strict_kex: k.strict,
    };
    Names {
        kex: KexId(k.kex),
        key: KeyId(key_number(k.key)),
        cipher: CipherId(number(k.cipher, FIRST_CIPHER)),
        client_mac: MacId(number(k.client_mac, FIRST_MAC)),
        server_mac: MacId(number(k.server_mac, FIRST_MAC)),
        client_compression: CompressionId(number(k.client_compression, FIRST_COMPRESSION)),
        server_compression: CompressionId(number(k.server_compression, FIRST_COMPRESSION)),
        flags,
    }
}
