// The input of a line, read and put to our code: what it answers, or nothing where the input cannot be read. Each function is
// handed the reader after its name, and hands back the reader after its input.
use crate::answers::{Answer, Values};
use crate::functions::Function;
use crate::reader::Reader;
use crate::tables::{ROWS, part, read_lists};
use answer::Cause;
use channels::OpenChannelMessage;
use framing::{Counters, Opened};
use replies::ChannelOpenConfirmation;
use shapes::DONE;
use text::front;
use wire::Place;

type Asked<'a> = Option<(Answer<'a>, Reader)>;

// A writer's answer, and what it wrote.
fn written(wrote: Result<usize, Cause>, out: &[u8]) -> Answer<'_> {
    match wrote {
        Ok(n) => Answer::Accepted(Values::Bytes(front(out, n))),
        Err(cause) => cause.into(),
    }
}

fn read_kex<'a>(line: &[u8], r: Reader, space: &'a [u8]) -> Asked<'a> {
    let (lists, r) = read_lists(line, r)?;
    let (strict_agreed, r) = r.number(line)?;
    if 1 < strict_agreed {
        return None;
    }
    let (payload, end) = r.bytes(line)?;
    let mut key_ids = [0u32; ROWS];
    let mut cert_ids = [0u32; ROWS];
    let tables = lists.lend(space, &mut key_ids, &mut cert_ids);
    let got = negotiation::read_kex(&tables, strict_agreed == 1, part(space, payload));
    let answer = match got {
        Ok(names) => Answer::Accepted(Values::Settled(names)),
        Err(why) => why.into(),
    };
    Some((answer, end))
}

fn write_kex<'a>(line: &[u8], r: Reader, space: &[u8], out: &'a mut [u8]) -> Asked<'a> {
    let (lists, r) = read_lists(line, r)?;
    let (cookie, end) = r.bytes(line)?;
    let mut key_ids = [0u32; ROWS];
    let mut cert_ids = [0u32; ROWS];
    let tables = lists.lend(space, &mut key_ids, &mut cert_ids);
    let wrote = kexinit::write_kex(&tables, part(space, cookie), out);
    Some((written(wrote, out), end))
}

// A uint32, a number and bytes: what three of the functions are asked with.
fn three(line: &[u8], r: Reader) -> Option<(u32, u64, Place, Reader)> {
    let (first, r) = r.number(line)?;
    let (second, r) = r.number(line)?;
    let (place, end) = r.bytes(line)?;
    Some((u32::try_from(first).ok()?, second, place, end))
}

fn frame_read<'a>(line: &[u8], r: Reader, space: &'a [u8]) -> Asked<'a> {
    let (seqn, bytes, place, end) = three(line, r)?;
    let s = part(space, place);
    let answer = match framing::read(s, Counters { seqn, bytes }) {
        Ok(Opened::Need(n)) => Answer::Need(n),
        Ok(Opened::Whole(p)) => Answer::Accepted(Values::Whole(p, s)),
        Err(why) => why.into(),
    };
    Some((answer, end))
}

fn frame_write<'a>(line: &[u8], r: Reader, space: &[u8], out: &'a mut [u8]) -> Asked<'a> {
    let (seqn, bytes, payload, end) = three(line, r)?;
    let answer = match framing::write(part(space, payload), Counters { seqn, bytes }, out) {
        Ok(s) => Answer::Accepted(Values::Sealed(s.counters, front(out, s.total))),
        Err(cause) => cause.into(),
    };
    Some((answer, end))
}

fn open<'a>(line: &[u8], r: Reader, space: &'a [u8]) -> Asked<'a> {
    let (place, end) = r.bytes(line)?;
    let body = part(space, place);
    let answer = match OpenChannelMessage::parse(body) {
        Ok(m) => Answer::Accepted(Values::Opening(m, body)),
        Err(why) => why.into(),
    };
    Some((answer, end))
}

fn confirmation<'a>(line: &[u8], r: Reader, space: &[u8]) -> Asked<'a> {
    let (body, end) = r.bytes(line)?;
    let answer = match ChannelOpenConfirmation::parse(part(space, body)) {
        Ok(m) => Answer::Accepted(Values::Confirmed(m)),
        Err(why) => why.into(),
    };
    Some((answer, end))
}

fn fail<'a>(line: &[u8], r: Reader, space: &[u8], out: &'a mut [u8]) -> Asked<'a> {
    let (recipient, reason, text, end) = three(line, r)?;
    let reason = u8::try_from(reason).ok()?;
    let wrote = replies::fail(recipient, reason, part(space, text), out);
    Some((written(wrote, out), end))
}

fn unknown_type<'a>(line: &[u8], r: Reader, out: &'a mut [u8]) -> Asked<'a> {
    let (recipient, end) = r.number(line)?;
    let recipient = u32::try_from(recipient).ok()?;
    let wrote = replies::unknown_type(recipient, out);
    Some((written(wrote, out), end))
}

fn show<'a>(line: &[u8], r: Reader, space: &'a [u8]) -> Asked<'a> {
    let (place, r) = r.bytes(line)?;
    let (start, r) = r.number(line)?;
    let (len, end) = r.number(line)?;
    let s = part(space, place);
    let start = start as usize;
    let len = len as usize;
    let p = shapes::judge_place(s, Place { start, len });
    // Kept: a number, since what is replayed is the struct that harupesat_show hands over.
    if p.what == DONE {
        let (start, len) = (p.start, p.len);
        let shown = part(s, Place { start, len });
        return Some((Answer::Accepted(Values::Bytes(shown)), end));
    }
    let refused = Answer::Refused {
        number: p.number,
        offset: Some(p.offset),
    };
    Some((refused, end))
}

// Our code's answer to the input, which stands from the reader on, and the reader after it.
pub fn ask<'a>(
    function: Function,
    line: &[u8],
    r: Reader,
    space: &'a [u8],
    out: &'a mut [u8],
) -> Asked<'a> {
    match function {
        Function::ReadKex => read_kex(line, r, space),
        Function::WriteKex => write_kex(line, r, space, out),
        Function::FrameRead => frame_read(line, r, space),
        Function::FrameWrite => frame_write(line, r, space, out),
        Function::Open => open(line, r, space),
        Function::Confirmation => confirmation(line, r, space),
        Function::Fail => fail(line, r, space, out),
        Function::UnknownType => unknown_type(line, r, out),
        Function::Show => show(line, r, space),
    }
}
