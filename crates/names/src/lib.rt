// The name tables of document 01, "Names and their numbers".
//
// Copyright 2016 Pierre-Étienne Meunier, licensed under the Apache License, Version 2.0 (NOTICE); changed: rewritten for
// lent slices and tables of numbers.
#![tactic(auto)]

ghost use Rattle.std.specs.Prelude.{◌≡◌, length};
ghost use Rattle.names.specs.Tables.{names_of, first_row};
ghost use Rattle.names.specs.Spelled.{flag, needs_mac, built_in_integrity};
ghost use Rattle.names.specs.Numbered.{Numbers};

use answer::Cause;

mod numbers;
mod rows;
mod spell;
pub mod tables;

pub use numbers::lookup;
pub use rows::Columns;
pub use spell::put_name;

// The rows at which the kinds start in the one table; the kex names stand first.
pub const FIRST_KEY: u8 = 13;

pub const FIRST_CERTIFICATE: u8 = 20;

pub const FIRST_CIPHER: u8 = 27;

pub const FIRST_MAC: u8 = 38;

pub const FIRST_COMPRESSION: u8 = 43;

// "Each kind of number has a type of its own, so a MAC number can't be used as a cipher number."
#[derive(Clone, Copy, Debug, PartialEq, Eq)]
pub struct KexId(pub u8);

#[derive(Clone, Copy, Debug, PartialEq, Eq)]
pub struct KeyId(pub u8);

#[derive(Clone, Copy, Debug, PartialEq, Eq)]
pub struct CipherId(pub u8);

#[derive(Clone, Copy, Debug, PartialEq, Eq)]
pub struct MacId(pub u8);

#[derive(Clone, Copy, Debug, PartialEq, Eq)]
pub struct CompressionId(pub u8);

// Whose table a number counts in. A certificate's number is its key's.
#[derive(Clone, Copy, Debug, PartialEq, Eq)]
pub enum Kind {
    Kex,
    Key,
    Certificate,
    Cipher,
    Mac,
    Compression,
}

impl Kind {
    // The row at which the kind's names start.
    pub fn first_row(self) -> usize
        ensures { result ≡ first_row self }
    {
        match self {
            Kind::Kex => 0,
            Kind::Key => usize::from(FIRST_KEY),
            Kind::Certificate => usize::from(FIRST_CERTIFICATE),
            Kind::Cipher => usize::from(FIRST_CIPHER),
            Kind::Mac => usize::from(FIRST_MAC),
            Kind::Compression => usize::from(FIRST_COMPRESSION),
        }
    }

    pub fn count(self) -> usize
        ensures { result ≡ length (names_of self) }
    {
        match self {
            Kind::Kex => 13,
            Kind::Key => 7,
            Kind::Certificate => 7,
            Kind::Cipher => 11,
            Kind::Mac => 5,
            Kind::Compression => 1,
        }
    }
}

// A kind by its number, as include/harupesat.h counts them.
impl TryFrom<u8> for Kind {
    type Error = Cause;

    ghost try_from_gives = { Numbers };

    #[tactic(auto, unfolding(crate::specs::Numbered::kind_of))]
    fn try_from(number: u8) -> Result<Kind, Cause> {
        match number {
            0 => Ok(Kind::Kex),
            1 => Ok(Kind::Key),
            2 => Ok(Kind::Certificate),
            3 => Ok(Kind::Cipher),
            4 => Ok(Kind::Mac),
            5 => Ok(Kind::Compression),
            _ => Err(Cause::BadTable),
        }
    }
}

impl CipherId {
    pub fn needs_mac(self) -> Result<bool, Cause>
        ensures { flag result ≡ needs_mac self.0 }
    {
        rows::flag_at(&tables::NEEDS_MAC, self.0)
    }

    pub fn built_in_integrity(self) -> Result<bool, Cause>
        ensures { flag result ≡ built_in_integrity self.0 }
    {
        rows::flag_at(&tables::BUILT_IN, self.0)
    }
}
