// The structs that cross the border, as include/harupesat.h has them: here what each of them says first, and the two that
// belong to no message. A place is judged here, since a part of a slice cannot cross.
#![tactic(auto)]

ghost use Rattle.std.specs.Prelude.{◌≡◌};
ghost use Rattle.put.specs.Written.{put};
ghost use Rattle.wire.specs.Shown.{shown};
ghost use Rattle.shapes.specs.Shapes.{written_of, shown_of};

use answer::Cause;
use wire::Place;

// The answers of `what`. Kept: numbers, as include/harupesat.h has them (HARUPESAT_REFUSED ..).
pub const REFUSED: u8 = 0;

pub const DONE: u8 = 1;

pub const NEED: u8 = 2;

pub const UNKNOWN: u8 = 3;

// What a writer answers: `len` bytes stand at the front of the lent output.
// Kept: `Written` and `Shown` of include/harupesat.h, field by field.
#[repr(C)]
#[derive(Clone, Copy, Debug, Default, PartialEq, Eq)]
pub struct Written {
    pub what: u8,
    pub number: u8,
    pub len: usize,
}

#[repr(C)]
#[derive(Clone, Copy, Debug, Default, PartialEq, Eq)]
pub struct Shown {
    pub what: u8,
    pub number: u8,
    pub offset: usize,
    pub start: usize,
    pub len: usize,
}

impl From<Result<usize, Cause>> for Written {
    ghost from_gives = { λ r w. w ≡ written_of (put r) };

    #[tactic(auto, unfolding(crate::specs::Shapes::written_of))]
    fn from(r: Result<usize, Cause>) -> Written {
        match r {
            Ok(len) => Written {
                what: DONE,
                len,
                ..Written::default()
            },
            Err(cause) => Written {
                what: REFUSED,
                number: cause.number(),
                ..Written::default()
            },
        }
    }
}

pub fn judge_place(s: &[u8], p: Place) -> Shown
    ensures { result ≡ shown_of p (shown s.now p) }
{
    match p.show(s) {
        Ok(_) => Shown {
            what: DONE,
            start: p.start,
            len: p.len,
            ..Shown::default()
        },
        Err(cause) => Shown {
            what: REFUSED,
            number: cause.number(),
            ..Shown::default()
        },
    }
}
