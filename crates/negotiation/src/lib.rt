// Negotiation (RFC 4253 section 7.1): `read_kex` of src/negotiation.rs. What a side writes is in crate kexinit.
//
// Copyright 2016 Pierre-Étienne Meunier, licensed under the Apache License, Version 2.0 (NOTICE); changed: rewritten for
// lent slices and tables of numbers.
#![tactic(auto)]

mod read;
mod rows;

use names::{CipherId, CompressionId, KexId, KeyId, MacId};
pub use read::read_kex;

#[derive(Clone, Copy, Debug, PartialEq, Eq)]
pub struct Flags {
    pub host_key_is_certificate: bool,
    pub ignore_guessed: bool,
    pub strict_kex: bool,
}

// What was settled: `Names` of the Rust.
// Kept: the flag beside the key's number, as document 01 wants the record ("Forms") and C has it (harupesat_names).
#[derive(Clone, Copy, Debug, PartialEq, Eq)]
pub struct Names {
    pub kex: KexId,
    pub key: KeyId,
    pub cipher: CipherId,
    pub client_mac: MacId,
    pub server_mac: MacId,
    pub client_compression: CompressionId,
    pub server_compression: CompressionId,
    pub flags: Flags,
}
