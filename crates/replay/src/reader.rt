// The words of a recorded line (oracle/README.md, "A recorded line"), read by a value that moves: how far it is in the
// line, and how much of the space the bytes that were read take. The bytes are put there beforehand, those of a whole line
// at once, so that what reads and asks has the space as `&`.
ghost use Rattle.std.specs.Prelude.{◌≡◌, ◌<◌, ◌≤◌, length, IfSome};

use wire::Place;

// Room for the bytes of a line, and for what our code writes.
const SPACE: usize = 300000;

// The length is what lending the array as a slice needs.
pub fn room() -> [u8; SPACE]
    ensures { 300000 ≡ length result }
{
    [0; SPACE]
}

#[derive(Clone, Copy, Debug)]
pub struct Reader {
    pub at: usize,
    pub used: usize,
}

// One byte or a run of it, and where its text ends.
#[derive(Clone, Copy, Debug)]
struct Piece {
    byte: u8,
    count: usize,
    next: usize,
}

// A digit to base 16, in lower case.
fn digit(c: u8) -> Option<u8>
    ensures { IfSome result (λ d. d < 16) }
{
    match c {
        b'0'..=b'9' => Some(c - b'0'),
        b'a'..=b'f' => Some(c - b'a' + 10),
        _ => None,
    }
}

// The place after the byte at `at`, where it stands there.
pub fn skip(s: &[u8], at: usize, byte: u8) -> Option<usize>
    ensures { IfSome result (λ next. (at < next) × (next ≤ length s.now)) }
{
    if at < s.len() && s[at] == byte {
        return Some(at + 1);
    }
    None
}

// The number with one digit more, where there is one and a u64 has room for it.
fn longer(n: u64, c: u8) -> Option<u64> {
    if !c.is_ascii_digit() {
        return None;
    }
    n.checked_mul(10)?.checked_add(u64::from(c - b'0'))
}

// The number that starts at `at`, and where it ends.
fn decimal(line: &[u8], at: usize) -> (u64, usize)
    ensures { at ≤ result.1 }
{
    let mut n = 0;
    for i in at..line.len() {
        match longer(n, line[i]) {
            Some(more) => n = more,
            None => return (n, i),
        }
    }
    (n, at.max(line.len()))
}

// A byte that stands for itself, `\hh`, or `\hh*count.`; a count of 0 is none.
fn unit(line: &[u8], at: usize) -> Option<Piece>
    requires { at < length line.now }
    ensures { IfSome result (λ u. at < u.next) }
{
    let byte = line[at];
    if byte != b'\\' {
        return Some(Piece {
            byte,
            count: 1,
            next: at + 1,
        });
    }
    if line.len() - at < 3 {
        return None;
    }
    let byte = digit(line[at + 1])? * 16 + digit(line[at + 2])?;
    let Some(star) = skip(line, at + 3, b'*') else {
        return Some(Piece {
            byte,
            count: 1,
            next: at + 3,
        });
    };
    let (n, end) = decimal(line, star);
    let next = skip(line, end, b'.')?;
    if n == 0 {
        return None;
    }
    Some(Piece {
        byte,
        count: n as usize,
        next,
    })
}

impl Reader {
    // A given word, with the space after it.
    pub fn word(self, line: &[u8], word: &[u8]) -> Option<Reader> {
        let rest = line.get(self.at..)?;
        if rest.starts_with(word) {
            let at = self.at + word.len();
            return Some(Reader { at, ..self });
        }
        None
    }

    // Every other word of the input is followed by a space.
    pub fn number(self, line: &[u8]) -> Option<(u64, Reader)> {
        let (n, end) = decimal(line, self.at);
        if end == self.at {
            return None;
        }
        let at = skip(line, end, b' ')?;
        Some((n, Reader { at, ..self }))
    }

    // Bytes between quotes: where `spread` has put them.
    pub fn bytes(self, line: &[u8]) -> Option<(Place, Reader)> {
        let mut at = skip(line, self.at, b'"')?;
        let start = self.used;
        let mut used = start;
        // Kept: no index is counted, `at` moves by the text of a unit, and the proof is that it does.
        while at < line.len() {
            if let Some(end) = skip(line, at, b'"') {
                let at = skip(line, end, b' ')?;
                let len = used - start;
                return Some((Place { start, len }, Reader { at, used }));
            }
            let u = unit(line, at)?;
            if SPACE.saturating_sub(used) < u.count {
                return None;
            }
            used += u.count;
            at = u.next;
        }
        None
    }
}

// The bytes of all words between quotes, one after the other. Where one has no room it is left out, with all that follow.
pub fn spread(line: &[u8], space: &mut [u8]) {
    let mut inside = false;
    let mut used = 0;
    let mut at = 0;
    // Kept, as in `bytes`.
    while at < line.len() {
        let Some(u) = unit(line, at) else {
            return;
        };
        if line[at] == b'"' {
            inside = !inside;
        } else if inside {
            if space.len() - used < u.count {
                return;
            }
            let end = used + u.count;
            space[used..end].fill(u.byte);
            used = end;
        }
        at = u.next;
    }
}
