// Clear packets as they cross the border: what was read, and what was written.
#![tactic(auto)]

ghost use Rattle.std.specs.Prelude.{◌≡◌};
ghost use Rattle.framing.specs.Answers.{got_packet, wrote};
ghost use Rattle.frames.specs.Frames.{frame_of, sealed_of};

use answer::{Cause, Refusal};
use framing::Opened;
use shapes::{DONE, NEED, REFUSED};

// Kept: `Frame` and `Sealed` of include/harupesat.h, field by field (harupesat_frame_read, harupesat_frame_write).
#[repr(C)]
#[derive(Clone, Copy, Debug, Default, PartialEq, Eq)]
pub struct Frame {
    pub what: u8,
    pub number: u8,
    pub offset: usize,
    pub need: usize,
    pub start: usize,
    pub len: usize,
    pub end: usize,
    pub taken: usize,
    pub seqn: u32,
    pub bytes: u64,
}

#[repr(C)]
#[derive(Clone, Copy, Debug, Default, PartialEq, Eq)]
pub struct Sealed {
    pub what: u8,
    pub number: u8,
    pub len: usize,
    pub seqn: u32,
    pub bytes: u64,
}

impl From<Result<Opened, Refusal>> for Frame {
    ghost from_gives = { λ r f. f ≡ frame_of (got_packet r) };

    #[tactic(auto, unfolding(crate::specs::Frames::frame_of))]
    fn from(r: Result<Opened, Refusal>) -> Frame {
        match r {
            Ok(Opened::Need(need)) => Frame {
                what: NEED,
                need,
                ..Frame::default()
            },
            Ok(Opened::Whole(p)) => Frame {
                what: DONE,
                start: p.payload.start,
                len: p.payload.len,
                end: p.end,
                taken: p.taken,
                seqn: p.counters.seqn,
                bytes: p.counters.bytes,
                ..Frame::default()
            },
            Err(refusal) => Frame {
                what: REFUSED,
                number: refusal.cause.number(),
                offset: refusal.offset,
                ..Frame::default()
            },
        }
    }
}

impl From<Result<framing::Sealed, Cause>> for Sealed {
    ghost from_gives = { λ r s. s ≡ sealed_of (wrote r) };

    #[tactic(auto, unfolding(crate::specs::Frames::sealed_of))]
    fn from(r: Result<framing::Sealed, Cause>) -> Sealed {
        match r {
            Ok(s) => Sealed {
                what: DONE,
                len: s.total,
                seqn: s.counters.seqn,
                bytes: s.counters.bytes,
                ..Sealed::default()
            },
            Err(cause) => Sealed {
                what: REFUSED,
                number: cause.number(),
                ..Sealed::default()
            },
        }
    }
}
