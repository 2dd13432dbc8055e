// Numbers picked out of the lent lists, in their order, into a list of their own. Each function is total, so that no
// caller owes it a proof.
//
// Copyright 2016 Pierre-Étienne Meunier, licensed under the Apache License, Version 2.0 (NOTICE); changed: rewritten for
// lent slices and tables of numbers.
#![tactic(auto)]

ghost use Rattle.std.specs.Prelude.{◌≡◌, ℕ, Bool, []};
ghost use Rattle.choice.specs.Choice.{kept};
ghost use Rattle.filters.specs.Picked.{without, held, of_kind, kind_of};
ghost use Rattle.filters.specs.Made.{row_list, joined, joined_once, certified};

use judging::MOST_ENTRIES;

mod rows;

pub use rows::{RowList, push};

// The most rows of an own list: certificate names, then key names.
pub const MOST_OWN: usize = 2 * MOST_ENTRIES;

// The kind of an RSA key, and its first name's number.
// Kept: a key row's kind is a number, as C lends it (harupesat_read_kex).
const RSA: u8 = 4;

// Those that are to be kept: `keep` answers as p does.
fn picked<F: Fn(u8) -> bool>(numbers: &[u8], keep: F) -> RowList
    requires { F.IsAlwaysCallable keep }
    ensures { (p : ℕ → Bool) → ((n : ℕ) (b : Bool) → F.post keep n b → b ≡ p n) → result ≡ joined (row_list []) (kept p numbers.now) }
{
    let mut list = RowList::new();
    for &n in numbers {
        if keep(n) {
            push(&mut list, n);
        }
    }
    list
}

pub fn without(dropped: &[u8], numbers: &[u8]) -> RowList
    ensures { result ≡ joined (row_list []) (without dropped.now numbers.now) }
{
    picked(numbers, |n| !dropped.contains(&n))
}

// Every RSA name goes with an RSA key.
fn kind_of(number: u8) -> u8
    ensures { result ≡ kind_of number }
{
    number.min(RSA)
}

pub fn held(kinds: &[u8], key: &[u8]) -> RowList
    ensures { result ≡ joined (row_list []) (held kinds.now key.now) }
{
    picked(key, |n| kinds.contains(&kind_of(n)))
}

// The names of this kind that are not there yet.
fn join_kind(names: &mut RowList, kind: u8, key: &[u8])
    ensures { names.new ≡ joined_once names.old (of_kind kind key.now) }
{
    for &n in key {
        if kind_of(n) == kind && !names.contains(&n) {
            push(names, n);
        }
    }
}

// The key numbers for which the server has a certificate. `held` are the identities of its keys.
pub fn certified(key: &[u8], held: &[u32], kinds: &[u8], ids: &[u32]) -> RowList
    ensures { result ≡ certified (row_list []) key.now held.now kinds.now ids.now }
{
    let mut names = RowList::new();
    for (&kind, id) in kinds.iter().zip(ids) {
        if held.contains(id) {
            join_kind(&mut names, kind, key);
        }
    }
    names
}
