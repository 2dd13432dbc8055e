// Reading a KEXINIT stage by stage (RFC 4253 section 7.1), fields and choices alternating as in `read_kex` of the Rust. What
// is chosen are rows of a table of names.
//
// Copyright 2016 Pierre-Étienne Meunier, licensed under the Apache License, Version 2.0 (NOTICE); changed: rewritten for
// lent slices and tables of numbers.
#![tactic(auto)]

ghost use Rattle.std.specs.Prelude.{◌≡◌, ◌-◌};

mod stages;

pub use stages::Reading;

// A row's number in its kind, whose rows start at `first`.
pub fn number(row: u8, first: u8) -> u8
    ensures { result ≡ row - first }
{
    row.saturating_sub(first)
}

// The rows that were chosen so far, and the flags. `guessed`: kex and key are both first.
#[derive(Clone, Copy, Debug, PartialEq, Eq)]
pub struct Rows {
    pub kex: u8,
    pub key: u8,
    pub cipher: u8,
    pub client_mac: u8,
    pub server_mac: u8,
    pub client_compression: u8,
    pub server_compression: u8,
    pub guessed: bool,
    pub strict: bool,
}
