// Name-lists written of rows of the name tables (RFC 4251 section 5): first every row is judged, then the list is
// measured, then it is written, so that a refusal changes nothing.
#![tactic(auto)]

ghost use Rattle.std.specs.Prelude.{◌++◌, ◌≡◌, ◌+◌, ◌-◌, ◌≤◌, min, length};
ghost use Rattle.std.proofs.lemmas.List.Edits.{sets};
ghost use Rattle.put.specs.Written.{written, buffer, put, word};
ghost use Rattle.commas.specs.Cut.{join};
ghost use Rattle.wire.specs.Shown.{bytes_of};
ghost use Rattle.names.specs.Spelled.{spelled_by};
ghost use Rattle.lists.specs.Lists.{list_by};
ghost use Rattle.lists.specs.Texts.{named, texts, name_and_comma, most, size_from, length_by};

use answer::Cause;
use names::Columns;
use put::{after, put_bytes, put_u32};

// One more than the longest list has with a comma after each name. Counting stops here, so that no sum wraps.
const MOST: usize = 4294967297;

fn known(names: &Columns, rows: &[u8]) -> bool
    ensures { result ≡ named (spelled_by names.now) rows.now }
{
    for row in rows {
        if names.spelling(usize::from(*row)).is_err() {
            return false;
        }
    }
    true
}

// What a row spells, where one that is outside counts as empty.
fn spelt<'a>(names: &Columns<'a, '_>, row: u8) -> &'a [u8]
    ensures { result.now ≡ bytes_of (spelled_by names.now row) }
{
    names.spelt(usize::from(row))
}

// A name and its comma more, or as far as is counted.
fn with_comma(sum: usize, n: usize) -> usize
    ensures { result ≡ min (sum + (n + 1)) most }
{
    sum.saturating_add(n).saturating_add(1).min(MOST)
}

#[tactic(auto, using(crate::proofs::WalkLaws::size_laws))]
fn size(names: &Columns, rows: &[u8]) -> usize
    ensures { result ≡ size_from 0 (texts (spelled_by names.now) rows.now) }
{
    let mut total = 0;
    for row in rows {
        total = with_comma(total, spelt(names, *row).len());
    }
    total
}

#[tactic(auto, using(crate::proofs::StoreLaws::store_laws))]
fn store(out: &mut [u8], at: usize, x: &[u8]) -> usize
    requires { at + length x.now ≤ length out.old }
    ensures next { result ≡ at + length x.now }
    ensures bytes { out.new ≡ sets out.old at x.now }
{
    after(put_bytes(out, at, x), at)
}

fn store_part(names: &Columns, row: u8, out: &mut [u8], at: usize) -> usize
    requires { at + length (name_and_comma (spelled_by names.now row)) ≤ length out.old }
    ensures next { result ≡ at + length (name_and_comma (spelled_by names.now row)) }
    ensures bytes { out.new ≡ sets out.old at (name_and_comma (spelled_by names.now row)) }
{
    let p = store(out, at, spelt(names, row));
    store(out, p, b",")
}

fn store_names(names: &Columns, rows: &[u8], out: &mut [u8], at: usize) -> usize
    requires { at + length (join (texts (spelled_by names.now) rows.now)) ≤ length out.old }
    ensures next { result ≡ at + length (join (texts (spelled_by names.now) rows.now)) }
    ensures bytes { out.new ≡ sets out.old at (join (texts (spelled_by names.now) rows.now)) }
{
    let Some((last, front)) = rows.split_last() else {
        return at;
    };
    let mut p = at;
    for row in front {
        p = store_part(names, *row, out, p);
    }
    store(out, p, spelt(names, *last))
}

fn store_list(names: &Columns, rows: &[u8], len: u32, out: &mut [u8], at: usize) -> usize
    requires { at + (4 + length (join (texts (spelled_by names.now) rows.now))) ≤ length out.old }
    ensures next { result ≡ at + (4 + length (join (texts (spelled_by names.now) rows.now))) }
    ensures bytes { out.new ≡ sets out.old at (word len ++ join (texts (spelled_by names.now) rows.now)) }
{
    let p = after(put_u32(out, at, len), at);
    store_names(names, rows, out, p)
}

// How many bytes the names of a list and their commas have, up to one more than the longest string: for a writer that
// must know the room before it writes.
#[tactic(auto, using(crate::proofs::ListLaws::measured_length))]
pub fn rows_length(names: &Columns, rows: &[u8]) -> usize
    ensures { result ≡ length_by (spelled_by names.now) rows.now }
{
    size(names, rows).saturating_sub(1)
}

// The list of rows of any three columns.
pub fn put_rows(names: &Columns, rows: &[u8], out: &mut [u8], at: usize) -> Result<usize, Cause>
    ensures answer { put result ≡ written out.old at (list_by (spelled_by names.now) rows.now) }
    ensures bytes { out.new ≡ buffer out.old at (list_by (spelled_by names.now) rows.now) }
{
    if !known(names, rows) {
        return Err(Cause::BadTable);
    }
    let total = size(names, rows);
    if MOST <= total {
        return Err(Cause::TooLong);
    }
    let len = total.saturating_sub(1);
    // By a difference, since a sum could wrap.
    if out.len().saturating_sub(at) < 4 + len {
        return Err(Cause::NoRoom);
    }
    Ok(store_list(names, rows, len as u32, out, at))
}
