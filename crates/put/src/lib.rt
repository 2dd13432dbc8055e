// Bytes out: each put writes all at a position of a lent buffer, or refuses and changes nothing.
#![tactic(auto)]

ghost use Rattle.std.specs.Prelude.{[], ◌∷◌, ◌≡◌, ◌+◌, ◌≤◌, ltb, length};
ghost use Rattle.std.proofs.lemmas.List.Edits.{sets};
ghost use Rattle.answer.specs.Answer.{done};
ghost use Rattle.put.specs.Written.{written, buffer, put, word, string};
ghost use Rattle.put.specs.Runs.{next_or};

use answer::Cause;

// The most bytes whose count a uint32 can say.
const LONGEST: usize = 4294967295;

// Whether `need` bytes lack room at `at`: by a difference, since a sum could wrap.
fn lacks(len: usize, at: usize, need: usize) -> bool
    ensures { result ≡ ltb len (at + need) }
{
    if at <= len {
        return len - at < need;
    }
    true
}

// Kept: four stores and a loop, not `to_be_bytes` and `copy_from_slice`, so that the library for C needs no memcpy from outside.
fn store_u32(out: &mut [u8], at: usize, v: u32) -> usize
    requires { at + 4 ≤ length out.old }
    ensures next { result ≡ at + 4 }
    ensures bytes { out.new ≡ sets out.old at (word v) }
{
    out[at] = (v / 256 / 256 / 256 % 256) as u8;
    out[at + 1] = (v / 256 / 256 % 256) as u8;
    out[at + 2] = (v / 256 % 256) as u8;
    out[at + 3] = (v % 256) as u8;
    at + 4
}

fn store_bytes(out: &mut [u8], at: usize, x: &[u8]) -> usize
    requires { at + length x.now ≤ length out.old }
    ensures next { result ≡ at + length x.now }
    ensures bytes { out.new ≡ sets out.old at x.now }
{
    let mut j = 0;
    while j < x.len() {
        out[at + j] = x[j];
        j += 1;
    }
    at + j
}

// Where the next byte goes, or why not: a writer is no reader, and refuses nowhere.
// Kept: the output and the position are two, since each public writer promises of both, `written` and `buffer` of what was lent.
pub fn put_u8(out: &mut [u8], at: usize, v: u8) -> Result<usize, Cause>
    ensures answer { put result ≡ written out.old at (done (v ∷ [])) }
    ensures bytes { out.new ≡ buffer out.old at (done (v ∷ [])) }
{
    if lacks(out.len(), at, 1) {
        return Err(Cause::NoRoom);
    }
    out[at] = v;
    Ok(at + 1)
}

pub fn put_u32(out: &mut [u8], at: usize, v: u32) -> Result<usize, Cause>
    ensures answer { put result ≡ written out.old at (done (word v)) }
    ensures bytes { out.new ≡ buffer out.old at (done (word v)) }
{
    if lacks(out.len(), at, 4) {
        return Err(Cause::NoRoom);
    }
    Ok(store_u32(out, at, v))
}

pub fn put_bytes(out: &mut [u8], at: usize, x: &[u8]) -> Result<usize, Cause>
    ensures answer { put result ≡ written out.old at (done x.now) }
    ensures bytes { out.new ≡ buffer out.old at (done x.now) }
{
    if lacks(out.len(), at, x.len()) {
        return Err(Cause::NoRoom);
    }
    Ok(store_bytes(out, at, x))
}

pub fn put_string(out: &mut [u8], at: usize, x: &[u8]) -> Result<usize, Cause>
    ensures answer { put result ≡ written out.old at (string x.now) }
    ensures bytes { out.new ≡ buffer out.old at (string x.now) }
{
    if LONGEST < x.len() {
        return Err(Cause::TooLong);
    }
    if lacks(out.len(), at, 4 + x.len()) {
        return Err(Cause::NoRoom);
    }
    let body = store_u32(out, at, x.len() as u32);
    Ok(store_bytes(out, body, x))
}

// Where the next put goes when one was made at `at`: for a writer that has tested the room for a whole run of puts.
pub fn after(p: Result<usize, Cause>, at: usize) -> usize
    ensures { result ≡ next_or (put p) at }
{
    p.unwrap_or(at)
}
