// One list of a KEXINIT and the choice from it, by rows of a table of names: all seven lists go through here.
//
// Copyright 2016 Pierre-Étienne Meunier, licensed under the Apache License, Version 2.0 (NOTICE); changed: rewritten for
// lent slices and tables of numbers.
#![tactic(auto)]

use wire::Cursor;

mod pick;
mod rules;

pub use pick::{pick_name, stands_in};
pub use rules::mac_rule;

// What a list without a shared name comes to.
#[derive(Clone, Copy, Debug, PartialEq, Eq)]
pub enum Rule {
    Needed,
    Protected,
    Optional,
}

// The row that was chosen, whether it is both first, and where the next field starts.
#[derive(Clone, Copy, Debug, PartialEq, Eq)]
pub struct Picked {
    pub row: u8,
    pub first: bool,
    pub next: Cursor,
}
