// Names as they cross the border: a kind by its number, what a lookup and a column of the ciphers answer, and the default
// lists.
#![tactic(auto)]

ghost use Rattle.std.specs.Prelude.{◌≡◌};
ghost use Rattle.put.specs.Written.{written, buffer, put};
ghost use Rattle.kinds.specs.Kinds.{name_of, named_of, default_list, default_of};
ghost use Rattle.kinds.specs.Numbers.{numbered, IsFound, IsTruth};

use answer::Cause;
use names::Kind;
use preferred::defaults;
use shapes::{DONE, REFUSED, UNKNOWN};

// Kept: `Number` and `Truth` of include/harupesat.h, field by field.
#[repr(C)]
#[derive(Clone, Copy, Debug, Default, PartialEq, Eq)]
pub struct Number {
    pub what: u8,
    pub number: u8,
    pub value: u8,
}

#[repr(C)]
#[derive(Clone, Copy, Debug, Default, PartialEq, Eq)]
pub struct Truth {
    pub what: u8,
    pub number: u8,
    pub value: bool,
}

// What a look-up found.
impl From<Option<u8>> for Number {
    ghost from_gives = { IsFound };

    #[tactic(auto, unfolding(crate::specs::Numbers::found_of))]
    fn from(found: Option<u8>) -> Number {
        match found {
            Some(value) => Number {
                what: DONE,
                value,
                ..Number::default()
            },
            None => Number {
                what: UNKNOWN,
                ..Number::default()
            },
        }
    }
}

// What a column of the ciphers says.
impl From<Result<bool, Cause>> for Truth {
    ghost from_gives = { IsTruth };

    #[tactic(auto, unfolding(crate::specs::Numbers::truth_of))]
    fn from(flag: Result<bool, Cause>) -> Truth {
        match flag {
            Ok(value) => Truth {
                what: DONE,
                value,
                ..Truth::default()
            },
            Err(cause) => Truth {
                what: REFUSED,
                number: cause.number(),
                ..Truth::default()
            },
        }
    }
}

// The name of a number of a kind.
pub fn spell(kind: u8, number: u8, out: &mut [u8]) -> Result<usize, Cause>
    ensures answer { put result ≡ written out.old 0 (name_of kind number) }
    ensures bytes { out.new ≡ buffer out.old 0 (name_of kind number) }
{
    let of = Kind::try_from(kind)?;
    names::put_name(of, number, out, 0)
}

// The number of a name of a kind.
pub fn number_of(kind: u8, name: &[u8]) -> Number
    ensures { result ≡ numbered (named_of kind name.now) }
{
    match Kind::try_from(kind) {
        Ok(of) => names::lookup(of, name).into(),
        Err(cause) => Number {
            what: REFUSED,
            number: cause.number(),
            ..Number::default()
        },
    }
}

// The default numbers of a kind; no client certificates, which are the caller's decision.
#[tactic(auto, unfolding(crate::specs::Kinds::default_of))]
fn default_of<'a>(kind: Kind) -> &'a [u8]
    ensures { result.now ≡ default_of kind }
{
    match kind {
        Kind::Kex => &defaults::KEX,
        Kind::Key => &defaults::KEY,
        Kind::Certificate => &[],
        Kind::Cipher => &defaults::CIPHER,
        Kind::Mac => &defaults::MAC,
        Kind::Compression => &defaults::COMPRESSION,
    }
}

// The default list of a kind.
pub fn default_list(kind: u8, out: &mut [u8]) -> Result<usize, Cause>
    ensures answer { put result ≡ written out.old 0 (default_list kind) }
    ensures bytes { out.new ≡ buffer out.old 0 (default_list kind) }
{
    let of = Kind::try_from(kind)?;
    put::put_bytes(out, 0, default_of(of))
}
