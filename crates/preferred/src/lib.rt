// The lists that this side writes and chooses from, made of the local tables (document 01). `Preferred`,
// `server_certificate_names` and `possible_host_key_algos_for_keys` of src/negotiation.rs.
//
// Copyright 2016 Pierre-Étienne Meunier, licensed under the Apache License, Version 2.0 (NOTICE); changed: rewritten for
// lent slices and tables of numbers.
#![tactic(auto)]

pub mod defaults;
mod make;

ghost use Rattle.std.specs.Prelude.{◌≡◌};
ghost use Rattle.preferred.specs.Own.{no_lists};

pub use defaults::{default_lists, default_tables};
use filters::RowList;
pub use make::{fill_lists, own_lists};

// A side's own lists, made of tables that were judged.
#[derive(Clone, Copy, Debug)]
pub struct Own {
    pub kex_written: RowList,
    pub kex_chosen: RowList,
    pub key: RowList,
    pub cipher: RowList,
    pub mac: RowList,
    pub compression: RowList,
}

impl Own {
    // Nothing is in any of them.
    pub fn new() -> Own
        ensures { result ≡ no_lists }
    {
        Own {
            kex_written: RowList::new(),
            kex_chosen: RowList::new(),
            key: RowList::new(),
            cipher: RowList::new(),
            mac: RowList::new(),
            compression: RowList::new(),
        }
    }
}
