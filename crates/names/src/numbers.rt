// A name's number in its kind.
//
// Copyright 2016 Pierre-Étienne Meunier, licensed under the Apache License, Version 2.0 (NOTICE); changed: rewritten for
// lent slices and tables of numbers.
ghost use Rattle.std.specs.Prelude.{◌≡◌};
ghost use Rattle.names.specs.Tables.{first_row};
ghost use Rattle.names.specs.Lookup.{number_of, found, found_row, onward};

use super::{Kind, tables};

// The row of a name of a kind.
fn row_of(kind: Kind, name: &[u8]) -> Option<usize>
    ensures { found_row result ≡ onward (first_row kind) (number_of kind name.now) }
{
    let from = kind.first_row();
    let to = from + kind.count();
    tables::columns().find(from, to, name)
}

pub fn lookup(kind: Kind, name: &[u8]) -> Option<u8>
    ensures { found result ≡ number_of kind name.now }
{
    // No name is empty, so no row is looked at.
    if name.is_empty() {
        return None;
    }
    let row = row_of(kind, name)?;
    Some((row - kind.first_row()) as u8)
}
