// A packet written to the front of a lent output.
//
// Copyright 2016 Pierre-Étienne Meunier, licensed under the Apache License, Version 2.0 (NOTICE); changed: rewritten for
// lent slices and tables of numbers.
ghost use Rattle.std.specs.Prelude.{◌≡◌, ◌+◌, ◌≤◌, length, replicate};
ghost use Rattle.std.proofs.lemmas.List.Edits.{sets};
ghost use Rattle.put.specs.Written.{buffer};
ghost use Rattle.framing.specs.Clear.{padding_length, packet_length, frame, packet_of};
ghost use Rattle.framing.specs.Answers.{wrote, sealing};

use crate::{Counters, PADDING_AT, Sealed, judge_length};
use answer::Cause;

const BLOCK_SIZE: usize = 8;

// The most that padding_length answers.
const MOST_PADDING: usize = 11;

// "Cleartext packets (including lengths) must be multiple of 8 in length" (src/cipher/clear.rs).
#[tactic(auto, using(crate::proofs::CodeLaws::padding_laws))]
pub fn padding_length(payload: &[u8]) -> usize
    ensures padding { result ≡ padding_length (length payload.now) }
    ensures small { result ≤ 11 }
{
    let padding_len = BLOCK_SIZE - (5 + payload.len()) % BLOCK_SIZE;
    if padding_len < 4 {
        return padding_len + BLOCK_SIZE;
    }
    padding_len
}

// Kept: a loop and no `fill`, so that the library for C needs no name from outside.
#[tactic(auto, using(crate::proofs::CodeLaws::zeroed))]
fn fill_padding(out: &mut [u8], at: usize, n: usize)
    requires { at + n ≤ length out.old }
    ensures { out.new ≡ sets out.old at (replicate n 0) }
{
    for j in 0..n {
        out[at + j] = 0;
    }
}

// A copy takes 32 bytes at a time and is slow with what is left, so the last 32 bytes are copied whole, some of them again.
// They go by an array, which cannot overlap the output as the payload could for all that the compiler knows.
// Kept: the loop of `put_bytes` and no `copy_from_slice`, so that the library for C needs no name from outside.
fn put_payload(out: &mut [u8], x: &[u8])
    requires { 5 + length x.now ≤ length out.old }
    ensures { out.new ≡ sets out.old 5 x.now }
{
    if x.len() < 32 {
        let _ = put::put_bytes(out, 5, x);
        return;
    }
    let whole = x.len() / 32 * 32;
    let _ = put::put_bytes(out, 5, &x[..whole]);
    let last = x.len() - 32;
    let mut piece = [0; 32];
    let _ = put::put_bytes(&mut piece, 0, &x[last..]);
    let _ = put::put_bytes(out, 5 + last, &piece);
}

// The room was tested by the caller, so that no put refuses. As many zeros as padding can be are stored before the payload,
// which then stands over those that are too many: their number is a constant, so that they take two stores and no loop.
fn seal(payload: &[u8], padding: u8, len: u32, out: &mut [u8])
    requires { (padding ≡ padding_length (length payload.now))
        × (len ≡ packet_length (length payload.now))
        × (4 + packet_length (length payload.now) ≤ length out.old) }
    ensures { out.new ≡ sets out.old 0 (frame payload.now) }
{
    fill_padding(out, 4 + len as usize - MOST_PADDING, MOST_PADDING);
    let _ = put::put_u32(out, 0, len);
    let _ = put::put_u8(out, PADDING_AT, padding);
    put_payload(out, payload);
}

#[tactic(auto, using(crate::proofs::SealingLaws::write_laws))]
pub fn write(payload: &[u8], k: Counters, out: &mut [u8]) -> Result<Sealed, Cause>
    ensures answer { wrote result ≡ sealing out.old payload.now k }
    ensures bytes { out.new ≡ buffer out.old 0 (packet_of payload.now) }
{
    let padding = padding_length(payload);
    let len = 1 + payload.len() + padding;
    judge_length(len)?;
    if out.len() < len + 4 {
        return Err(Cause::NoRoom);
    }
    seal(payload, padding as u8, len as u32, out);
    Ok(Sealed {
        total: len + 4,
        counters: k.count(payload.len()),
    })
}
