// A packet taken from the front of a slice: where the Rust waits for more of its stream, the answer is "need".
//
// Copyright 2016 Pierre-Étienne Meunier, licensed under the Apache License, Version 2.0 (NOTICE); changed: rewritten for
// lent slices and tables of numbers.
ghost use Rattle.std.specs.Prelude.{◌≡◌, ◌+◌, ◌≤◌, length, IfOk};
ghost use Rattle.wire.specs.Shown.{shown, shown_part};
ghost use Rattle.framing.specs.Clear.{padding_of, packet_at, whole_packet, read_packet};
ghost use Rattle.framing.specs.Answers.{got_packet};

use crate::{Counters, Opened, PADDING_AT, Packet, judge_length, judge_padding};
use answer::{Cause, Refusal};
use wire::{Cursor, Place};

// A packet of length 0 has no byte for its padding.
#[tactic(auto, using(crate::proofs::CodeLaws::byte_laws))]
fn padding_of(s: &[u8], len: usize) -> usize
    requires { len + 4 ≤ length s.now }
    ensures { result ≡ padding_of s.now len }
{
    if len == 0 {
        return 0;
    }
    usize::from(s[PADDING_AT])
}

// What is left of a packet without its padding has the byte that says the padding, unless it is empty. The payload starts at
// its end minus its length and not at 5: where the end is 4, the slice may end there too.
fn packet_at(len: usize, padding: usize, k: Counters) -> Packet
    requires { (padding ≤ len) × (len ≤ 4294967295) }
    ensures { result ≡ packet_at len padding k }
{
    let plain = len - padding;
    let size = plain.saturating_sub(1);
    let end = plain + 4;
    Packet {
        payload: Place {
            start: end - size,
            len: size,
        },
        end,
        taken: len + 4,
        counters: k.count(size),
    }
}

fn open(s: &[u8], len: usize, k: Counters) -> Result<Opened, Refusal>
    requires { (len + 4 ≤ length s.now) × (len ≤ 4294967295) }
    ensures { got_packet result ≡ whole_packet s.now len k }
{
    let padding = padding_of(s, len);
    judge_padding(len, padding)?;
    Ok(Opened::Whole(packet_at(len, padding, k)))
}

#[tactic(auto, using(crate::proofs::OpeningLaws::read_laws))]
pub fn read(s: &[u8], k: Counters) -> Result<Opened, Refusal>
    ensures { got_packet result ≡ read_packet s.now k }
{
    let Ok((n, _)) = Cursor { at: 0 }.u32(s) else {
        return Ok(Opened::Need(4));
    };
    // Kept: `as`, as in crates/wire.
    let len = n as usize;
    judge_length(len)?;
    if s.len() < len + 4 {
        return Ok(Opened::Need(len + 4));
    }
    open(s, len, k)
}

impl Packet {
    // The payload as the part of the slice that it is.
    pub fn payload(self, s: &[u8]) -> Result<&[u8], Cause>
        ensures part { shown_part result ≡ shown s.now self.payload }
        ensures block { IfOk result (λ part. part.ref_ptr.0 ≡ s.entry.ref_ptr.0) }
        ensures place { IfOk result (λ part. part.ref_ptr.1 ≡ s.entry.ref_ptr.1 + self.payload.start) }
    {
        self.payload.show(s)
    }
}
