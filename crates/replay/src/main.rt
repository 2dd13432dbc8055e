// Replays recorded answers of the Rust (oracle/README.md): each line's input is put to our code, and what it answers must
// be what the line says. The list is the file that the first argument names; what is written is held to the file stdout.
#![tactic(auto)]

mod answers;
mod ask;
mod functions;
mod reader;
mod report;
mod tables;
mod tell;

use answers::Answer;
use ask::ask;
use functions::Function;
use reader::{Reader, room, spread};
use report::Report;
use std::fs::File;
use std::io;
use std::io::Write;
use std::os::unix::fs::FileExt;
use std::rt::Env;
use tell::agrees;
use text::front;

// As much of the list as is read for a line: a longer line cannot be read.
const PIECE: usize = 65536;

// The longest name of the list.
const PATH: usize = 4096;

// The input, up to its last word's space, and the recorded answer: on either side of ` = `, which stands in no word.
fn split(line: &[u8]) -> Option<(&[u8], &[u8])> {
    for i in 0..line.len() {
        if let Some(recorded) = line[i..].strip_prefix(b" = ") {
            return Some((&line[..i + 1], recorded));
        }
    }
    None
}

// The function that the input's first word names, and the reader after it.
fn named(input: &[u8]) -> Option<(Function, Reader)> {
    let end = input.iter().position(|b| *b == b' ')?;
    let function = Function::of_name(front(input, end))?;
    let at = end.checked_add(1)?;
    Some((function, Reader { at, used: 0 }))
}

// What our code answers to a line's input, all of which was read, and what was recorded.
fn answered<'a>(
    line: &'a [u8],
    space: &'a [u8],
    out: &'a mut [u8],
) -> Option<(Function, Answer<'a>, &'a [u8])> {
    let (input, recorded) = split(line)?;
    let (function, start) = named(input)?;
    let (answer, end) = ask(function, input, start, space, out)?;
    if end.at == input.len() {
        return Some((function, answer, recorded));
    }
    None
}

fn unread(to: &mut impl Write, number: u64, report: &mut Report) -> io::Result<()> {
    report.wrong();
    writeln!(to, "line {number} cannot be read")
}

// A line that starts with `#` says what follows. What our code writes of a line stands in front of `out`, whatever a line
// before it left there.
fn judge(
    to: &mut impl Write,
    line: &[u8],
    number: u64,
    out: &mut [u8],
    report: &mut Report,
) -> io::Result<()> {
    if line.starts_with(b"#") {
        return Ok(());
    }
    let mut space = room();
    spread(line, &mut space);
    let Some((function, answer, recorded)) = answered(line, &space, out) else {
        return unread(to, number, report);
    };
    report.count(function, &answer);
    if agrees(recorded, &answer) {
        return Ok(());
    }
    report.wrong();
    write!(to, "line {number}: recorded ")?;
    to.write_all(recorded)?;
    writeln!(to, ", ours {answer}")
}

// How many bytes of the file stand in the piece: none where it cannot be read.
fn read_at(file: &File, piece: &mut [u8], offset: u64) -> usize {
    if 9223372036854775807 < offset {
        return 0;
    }
    file.read_at(piece, offset).unwrap_or(0)
}

// The line that starts at the offset. Where the next one does, if any: what is left where no whole line is is nothing, or a
// line that has no end.
fn line_at(
    to: &mut impl Write,
    file: &File,
    offset: u64,
    number: u64,
    out: &mut [u8],
    report: &mut Report,
) -> io::Result<Option<u64>> {
    let mut piece = [0u8; PIECE];
    let n = read_at(file, &mut piece, offset);
    let read = front(&piece, n);
    let Some(end) = read.iter().position(|b| *b == b'\n') else {
        if n != 0 {
            unread(to, number, report)?;
        }
        return Ok(None);
    };
    judge(to, front(read, end), number, out, report)?;
    Ok(offset.checked_add(end as u64 + 1))
}

// Nothing says that a file ends, so the lines are counted.
fn replay(to: &mut impl Write, file: &File, report: &mut Report) -> io::Result<()> {
    let mut out = room();
    let mut offset: u64 = 0;
    for number in 1..u64::MAX {
        match line_at(to, file, offset, number, &mut out, report)? {
            Some(next) => offset = next,
            None => return Ok(()),
        }
    }
    Ok(())
}

fn reports(to: &mut impl Write, file: &File) -> io::Result<()> {
    let mut report = Report::new();
    replay(to, file, &mut report)?;
    write!(to, "{report}")
}

// The file that the first argument names, where it can be opened, which it is by a name that is UTF-8.
fn list(rt: &HostRuntime) -> Option<File> {
    let mut path = [0u8; PATH];
    let length = rt.arg(1, &mut path).ok()?;
    let path = str::from_utf8(&path[..length]).ok()?;
    File::open(rt, path).ok()
}

fn main(rt: HostRuntime) -> io::Result<()> {
    let mut out = io::writer(&rt);
    match list(&rt) {
        Some(file) => reports(&mut out, &file),
        None => writeln!(out, "the list cannot be opened"),
    }
}
