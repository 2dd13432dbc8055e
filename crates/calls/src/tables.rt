// A side's tables, as they stand in a call.
use crate::print::Numbers;
use std::fmt;

#[derive(Clone, Copy, Debug)]
pub struct Tables<'a> {
    pub server: bool,
    pub kex: &'a [u8],
    pub key: &'a [u8],
    pub certificate: &'a [u8],
    pub cipher: &'a [u8],
    pub mac: &'a [u8],
    pub compression: &'a [u8],
    pub key_kinds: &'a [u8],
    pub key_ids: &'a [u32],
    pub cert_kinds: &'a [u8],
    pub cert_ids: &'a [u32],
}

impl fmt::Display for Tables<'_> {
    fn fmt<W: fmt::Write>(&self, f: &mut fmt::Formatter<W>) -> fmt::Result {
        let side = if self.server { "server" } else { "client" };
        write!(f, " {side} kex{}", Numbers(self.kex))?;
        write!(f, " key{}", Numbers(self.key))?;
        write!(f, " certificate{}", Numbers(self.certificate))?;
        write!(f, " cipher{}", Numbers(self.cipher))?;
        write!(f, " mac{}", Numbers(self.mac))?;
        write!(f, " compression{}", Numbers(self.compression))?;
        write!(f, " key_kinds{}", Numbers(self.key_kinds))?;
        write!(f, " key_ids{}", Numbers(self.key_ids))?;
        write!(f, " cert_kinds{}", Numbers(self.cert_kinds))?;
        write!(f, " cert_ids{}", Numbers(self.cert_ids))
    }
}

// A side without a list.
pub fn no_lists(server: bool) -> Tables<'static> {
    Tables {
        server,
        kex: &[],
        key: &[],
        certificate: &[],
        cipher: &[],
        mac: &[],
        compression: &[],
        key_kinds: &[],
        key_ids: &[],
        cert_kinds: &[],
        cert_ids: &[],
    }
}
