// Rows of three columns: spellings, where each row starts in them, and how long it is. Every function is total over any
// three slices, so what lends the constants of `tables` may stand far above, once for many look-ups.
//
// Copyright 2016 Pierre-Étienne Meunier, licensed under the Apache License, Version 2.0 (NOTICE); changed: rewritten for
// lent slices and tables of numbers.
ghost use Rattle.std.specs.Prelude.{false, ◌≡◌, ◌-◌};
ghost use Rattle.put.specs.Written.{written, buffer, put};
ghost use Rattle.wire.specs.Shown.{shown_part, bytes_of};
ghost use Rattle.names.specs.Spelled.{spelled_by, entry, flag};
ghost use Rattle.names.specs.Lookup.{row_from, is, found_row};

use super::tables;
use answer::Cause;
use put::put_bytes;

// Kept: three columns, as document 01 has them ("constant tables of spellings, starts and lengths"); `row_name` says what a row is.
// What is spelled is a part of the spellings alone, and lives as long as they do: the other two may be lent for less.
#[derive(Clone, Copy, Debug, PartialEq, Eq)]
pub struct Columns<'a, 'b> {
    pub spellings: &'a [u8],
    pub starts: &'b [u16],
    pub lengths: &'b [u8],
}

impl<'a> Columns<'a, '_> {
    // What the row spells: it is in both columns, and ends within the spellings.
    pub fn spelling(&self, row: usize) -> Result<&'a [u8], Cause>
        ensures { shown_part result ≡ spelled_by self.now row }
    {
        let start = usize::from(*self.starts.get(row).ok_or(Cause::BadTable)?);
        let len = usize::from(*self.lengths.get(row).ok_or(Cause::BadTable)?);
        self.spellings
            .get(start..start + len)
            .ok_or(Cause::BadTable)
    }

    // The same, where a row that is outside counts as empty.
    pub fn spelt(&self, row: usize) -> &'a [u8]
        ensures { result.now ≡ bytes_of (spelled_by self.now row) }
    {
        self.spelling(row).unwrap_or(&[])
    }

    // The row spells the name.
    pub fn spells(&self, row: usize, name: &[u8]) -> bool
        ensures { result ≡ is (spelled_by self.now row) name.now }
    {
        match self.spelling(row) {
            Ok(spelt) => text::same(spelt, name),
            Err(_) => false,
        }
    }

    // The first row from `from` on, and before `to`, that spells the name.
    pub fn find(&self, from: usize, to: usize, name: &[u8]) -> Option<usize>
        ensures { found_row result ≡ row_from self.now.spellings.now self.now.starts.now self.now.lengths.now name.now from (to - from) }
    {
        for row in from..to {
            if self.spells(row, name) {
                return Some(row);
            }
        }
        None
    }

    // The name that a row spells.
    pub fn put_row(&self, row: usize, out: &mut [u8], at: usize) -> Result<usize, Cause>
        ensures answer { put result ≡ written out.old at (spelled_by self.now row) }
        ensures bytes { out.new ≡ buffer out.old at (spelled_by self.now row) }
    {
        let spelt = self.spelling(row)?;
        put_bytes(out, at, spelt)
    }
}

// What a column of bools says at a number.
pub fn flag_at(column: &[bool], number: u8) -> Result<bool, Cause>
    ensures { flag result ≡ entry false column.now number }
{
    column
        .get(usize::from(number))
        .copied()
        .ok_or(Cause::BadTable)
}
