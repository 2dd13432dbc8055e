// What every layer answers with when it cannot go on: a refusal that carries a number of document 01, and says where.
#![tactic(auto)]

ghost use Rattle.std.specs.Prelude.{◌≡◌};
ghost use Rattle.answer.specs.Refusal.{number, IsAtFront};

// Why an input or a table is refused: the numbers of document 01 ("Numbers a refusal carries"), named as
// include/harupesat.h names them. A writer, which refuses nowhere, answers with the cause alone.
#[derive(Clone, Copy, Debug, PartialEq, Eq, PartialOrd, Ord)]
pub enum Cause {
    TooLong = 1,
    PastEnd = 2,
    NotUtf8 = 3,
    PacketSize = 4,
    Trailing = 5,
    Inconsistent = 6,
    Padding = 7,
    NoRoom = 8,
    BadTable = 9,
    NoKex = 10,
    NoKey = 11,
    NoCipher = 12,
    NoMac = 13,
    NoCompression = 14,
}

// A refusal's cause, and the offset at which the offending field's first byte stands: in a payload or body from its first
// byte, in framing from the packet's (document 02, No. 6). What no field offends has offset 0. Readers alone answer with it.
// The offset stands first, since an opening is then read in fewer instructions.
#[derive(Clone, Copy, Debug, PartialEq, Eq)]
pub struct Refusal {
    pub offset: usize,
    pub cause: Cause,
}

impl Cause {
    pub fn number(self) -> u8
        ensures { result ≡ number self }
    {
        self as u8
    }

    // The refusal of the field that starts at `offset`.
    pub fn at(self, offset: usize) -> Refusal
        ensures { result ≡ record { offset = offset; cause = self } }
    {
        Refusal {
            offset,
            cause: self,
        }
    }
}

// What no field offends stands at the front.
impl From<Cause> for Refusal {
    ghost from_gives = { IsAtFront };

    fn from(cause: Cause) -> Refusal {
        cause.at(0)
    }
}
