// The choice (RFC 4253 section 7.1): the client's first name that the server lists. `Select::select` of
// src/negotiation.rs, with a side flag for its two implementations. The peer's list is walked once at either side.
//
// Copyright 2016 Pierre-Étienne Meunier, licensed under the Apache License, Version 2.0 (NOTICE); changed: rewritten for
// lent slices and tables of numbers.
#![tactic(auto)]

ghost use Rattle.std.specs.Prelude.{◌≡◌, ◌+◌, ◌≤◌, length};
ghost use Rattle.std.specs.List.{position};
ghost use Rattle.commas.specs.Cut.{cut};
ghost use Rattle.wire.specs.Shown.{part};
ghost use Rattle.choice.specs.Rows.{
  spells_by,
  row_at,
  own_first,
  peer_first,
  chosen_row,
  first_both,
  chose,
};

use names::Columns;
use wire::{Cursor, Place};

#[derive(Clone, Copy, Debug, PartialEq, Eq)]
pub enum Side {
    Client,
    Server,
}

// A name of the list, at the place that the cursor found.
fn at_place(list: &[u8], p: Place) -> &[u8]
    requires { p.start + p.len ≤ length list.now }
    ensures { result.now ≡ part p list.now }
{
    &list[p.start..p.start + p.len]
}

// The place of the first own row that spells the name.
fn position(names: &Columns, own: &[u8], name: &[u8]) -> Option<usize>
    ensures { result ≡ position (λ row. spells_by names.now row name.now) own.now }
{
    own.iter()
        .position(|&row| names.spells(usize::from(row), name))
}

fn row_at(own: &[u8], place: usize) -> Option<u8>
    ensures { chose result ≡ row_at own.now place }
{
    own.get(place).copied()
}

fn peer_first(names: &Columns, own: &[u8], list: &[u8]) -> Option<u8>
    ensures { chose result ≡ peer_first (spells_by names.now) own.now (cut list.now) }
{
    let mut c = Cursor { at: 0 };
    // Kept: walked by the cursor, whose `name` hands itself back (document 01, "Forms").
    while let Some((p, next)) = c.name(list) {
        if let Some(k) = position(names, own, at_place(list, p)) {
            return Some(own[k]);
        }
        c = next;
    }
    None
}

// Once a name is shared, only an own row before its row can still be chosen, so no other is looked at again, and nothing
// once it is the first.
fn own_first(names: &Columns, own: &[u8], list: &[u8]) -> Option<u8>
    ensures { chose result ≡ own_first (spells_by names.now) own.now (cut list.now) }
{
    let mut best = own.len();
    let mut c = Cursor { at: 0 };
    // Kept: walked by the cursor, whose `name` hands itself back (document 01, "Forms").
    while let Some((p, next)) = c.name(list) {
        best = position(names, &own[..best], at_place(list, p)).unwrap_or(best);
        if best == 0 {
            return row_at(own, best);
        }
        c = next;
    }
    row_at(own, best)
}

// The columns are the caller's, who lends the constant ones once for all lists. `own` has rows of them. What is chosen is
// the row of the own list's name, if a name is shared.
pub fn choose(names: &Columns, side: Side, own: &[u8], list: &[u8]) -> Option<u8>
    ensures { chose result ≡ chosen_row (spells_by names.now) side own.now (cut list.now) }
{
    match side {
        Side::Client => own_first(names, own, list),
        Side::Server => peer_first(names, own, list),
    }
}

pub fn both_first(names: &Columns, own: &[u8], list: &[u8]) -> bool
    ensures { result ≡ first_both (spells_by names.now) own.now (cut list.now) }
{
    let c = Cursor { at: 0 };
    let Some((p, _)) = c.name(list) else {
        return false;
    };
    if own.is_empty() {
        return false;
    }
    names.spells(usize::from(own[0]), at_place(list, p))
}
