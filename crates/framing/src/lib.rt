// Clear packets (RFC 4253 section 6): `read` and `write` of src/cipher/mod.rs over lent slices, with counters by value.
// The traits OpeningKey and SealingKey are the functions that src/cipher/clear.rs gives them.
//
// Copyright 2016 Pierre-Étienne Meunier, licensed under the Apache License, Version 2.0 (NOTICE); changed: rewritten for
// lent slices and tables of numbers.
#![tactic(auto)]

ghost use Rattle.std.specs.Prelude.{◌≡◌};
ghost use Rattle.answer.specs.Answer.{answered};
ghost use Rattle.wire.specs.Answers.{checked};
ghost use Rattle.framing.specs.Clear.{judged_length, judged_padding, counted};

use answer::{Cause, Refusal};
use wire::Place;

mod opening;
mod sealing;

pub use opening::read;
pub use sealing::{padding_length, write};

// MAXIMUM_PACKET_LEN of src/cipher/mod.rs.
const MAXIMUM_PACKET_LEN: usize = 262177;

// Where the byte that says the padding stands.
const PADDING_AT: usize = 4;

// What a direction counts: packets, modulo 2^32, and payload bytes.
#[derive(Clone, Copy, Debug, PartialEq, Eq)]
pub struct Counters {
    pub seqn: u32,
    pub bytes: u64,
}

// A packet that stands whole in the slice.
#[derive(Clone, Copy, Debug, PartialEq, Eq)]
pub struct Packet {
    pub payload: Place,
    pub end: usize,
    pub taken: usize,
    pub counters: Counters,
}

// What the front of a slice holds: more bytes are needed, so many in all, or a packet.
#[derive(Clone, Copy, Debug, PartialEq, Eq)]
pub enum Opened {
    Need(usize),
    Whole(Packet),
}

// How many bytes were written, and the counters after them.
#[derive(Clone, Copy, Debug, PartialEq, Eq)]
pub struct Sealed {
    pub total: usize,
    pub counters: Counters,
}

#[tactic(auto, using(crate::proofs::CodeLaws::judge_laws))]
fn judge_length(len: usize) -> Result<(), Cause>
    ensures { answered result ≡ judged_length len }
{
    if MAXIMUM_PACKET_LEN < len {
        return Err(Cause::PacketSize);
    }
    Ok(())
}

#[tactic(auto, using(crate::proofs::CodeLaws::judge_laws))]
fn judge_padding(len: usize, padding: usize) -> Result<(), Refusal>
    ensures { checked result ≡ judged_padding len padding }
{
    if len < padding {
        return Err(Cause::Padding.at(PADDING_AT));
    }
    Ok(())
}

impl Counters {
    // The Rust's writer adds payload bytes plainly; both directions stop at the largest count here, as its reader does.
    #[tactic(auto, unfolding(crate::specs::Clear::counted))]
    fn count(self, n: usize) -> Counters
        ensures { result ≡ counted n self }
    {
        Counters {
            seqn: self.seqn.wrapping_add(1),
            bytes: self.bytes.saturating_add(n as u64),
        }
    }
}
