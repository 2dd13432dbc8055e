// Every function of include/harupesat.h called, a line for each call: the call, then each field of its answer by name, and
// of a writer the lent output after it. The file stdout was written by hand from documents 01 and 02 and the header: what a
// definition and the code would get wrong alike shows here.
#![tactic(auto)]

mod channel;
mod failure;
mod frame;
mod kex_read;
mod kex_write;
mod name;
mod place;
mod print;
mod tables;

use std::io;
use std::io::Write;

fn every(to: &mut impl Write) -> io::Result<()> {
    frame::read(to)?;
    frame::write(to)?;
    frame::write_largest(to)?;
    kex_write::lists(to)?;
    kex_write::rooms(to)?;
    kex_write::tables(to)?;
    kex_read::client_offer(to)?;
    kex_read::server_offer(to)?;
    kex_read::long(to)?;
    channel::open(to)?;
    channel::open_refused(to)?;
    channel::confirm(to)?;
    channel::long(to)?;
    failure::fail(to)?;
    failure::fail_long(to)?;
    failure::unknown_type(to)?;
    place::show(to)?;
    name::names(to)?;
    name::unknown(to)?;
    name::rooms(to)?;
    name::columns(to)?;
    name::defaults(to)?;
    name::default_rooms(to)
}

fn main(rt: HostRuntime) -> io::Result<()> {
    every(&mut io::writer(&rt))
}
