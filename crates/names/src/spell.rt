// A number's name, written.
//
// Copyright 2016 Pierre-Étienne Meunier, licensed under the Apache License, Version 2.0 (NOTICE); changed: rewritten for
// lent slices and tables of numbers.
ghost use Rattle.std.specs.Prelude.{◌≡◌};
ghost use Rattle.put.specs.Written.{written, buffer, put};
ghost use Rattle.names.specs.Spelled.{spelled};

use super::{Kind, tables};
use answer::Cause;

pub fn put_name(kind: Kind, number: u8, out: &mut [u8], at: usize) -> Result<usize, Cause>
    ensures answer { put result ≡ written out.old at (spelled kind number) }
    ensures bytes { out.new ≡ buffer out.old at (spelled kind number) }
{
    let n = usize::from(number);
    if kind.count() <= n {
        return Err(Cause::BadTable);
    }
    let row = kind.first_row() + n;
    tables::columns().put_row(row, out, at)
}
