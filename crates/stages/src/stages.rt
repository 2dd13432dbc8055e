// The stages, the last one first: each hands the rows so far to the next.
//
// Copyright 2016 Pierre-Étienne Meunier, licensed under the Apache License, Version 2.0 (NOTICE); changed: rewritten for
// lent slices and tables of numbers.
ghost use Rattle.std.specs.Prelude.{◌≡◌, ◌-◌};
ghost use Rattle.answer.specs.Refusal.{number as number_of};
ghost use Rattle.wire.specs.Fields.{here};
ghost use Rattle.names.specs.Tables.{first_row};
ghost use Rattle.names.specs.declared.Kind.TheVariants.{Cipher};
ghost use Rattle.choice.specs.Rows.{spells_by};
ghost use Rattle.picking.specs.Picking.{mac_rule, picked, picked_of};
ghost use Rattle.stages.specs.Stages.{
  got_rows,
  last_fields,
  languages,
  compressions,
  macs,
  other_cipher,
  keys,
  read_rows,
};

use crate::{Rows, number};
use answer::{Cause, Refusal};
use choice::Side;
use names::{CipherId, Columns, FIRST_CIPHER};
use picking::{Picked, Rule, mac_rule, pick_name, stands_in};
use wire::Cursor;

// What a KEXINIT is read with: the columns of the names, the side and its own lists, rows of the columns, and the payload.
#[derive(Clone, Copy, Debug, PartialEq, Eq)]
pub struct Reading<'a> {
    pub names: Columns<'a, 'a>,
    pub side: Side,
    pub kex: &'a [u8],
    pub key: &'a [u8],
    pub cipher: &'a [u8],
    pub mac: &'a [u8],
    pub compression: &'a [u8],
    pub payload: &'a [u8],
}

fn row_rule(cipher: u8) -> Rule
    ensures { result ≡ mac_rule (cipher - first_row Cipher) }
{
    mac_rule(CipherId(number(cipher, FIRST_CIPHER)))
}

impl Reading<'_> {
    // One list, and the choice from it.
    fn pick(&self, rule: Rule, no: Cause, own: &[u8], c: Cursor) -> Result<Picked, Refusal>
        ensures { picked_of self.now.payload.now result ≡ picked (spells_by self.now.names) self.now.side rule (number_of no) own.now (here self.now.payload.now c.at) }
    {
        pick_name(&self.names, self.side, rule, no, own, self.payload, c)
    }

    // The follows byte, the reserved number, whatever it is, and the end.
    fn last_fields(&self, k: Rows, c: Cursor) -> Result<(Rows, bool), Refusal>
        ensures { got_rows result ≡ last_fields k (here self.now.payload.now c.at) }
    {
        let (follows, c) = c.u8(self.payload)?;
        let (_, c) = c.u32(self.payload)?;
        c.end(self.payload)?;
        Ok((k, follows != 0))
    }

    fn languages(&self, k: Rows, c: Cursor) -> Result<(Rows, bool), Refusal>
        ensures { got_rows result ≡ languages k (here self.now.payload.now c.at) }
    {
        let (_, c) = c.string(self.payload)?;
        let (_, c) = c.string(self.payload)?;
        self.last_fields(k, c)
    }

    fn compressions(&self, k: Rows, c: Cursor) -> Result<(Rows, bool), Refusal>
        ensures { got_rows result ≡ compressions (spells_by self.now.names) self.now.side self.now.compression.now k (here self.now.payload.now c.at) }
    {
        let client = self.pick(Rule::Needed, Cause::NoCompression, self.compression, c)?;
        let server = self.pick(
            Rule::Needed,
            Cause::NoCompression,
            self.compression,
            client.next,
        )?;
        let k = Rows {
            client_compression: client.row,
            server_compression: server.row,
            ..k
        };
        self.languages(k, server.next)
    }

    // Both MAC lists, under the cipher's rule.
    fn macs(&self, k: Rows, c: Cursor) -> Result<(Rows, bool), Refusal>
        ensures { got_rows result ≡ macs (spells_by self.now.names) self.now.side self.now.mac.now self.now.compression.now k (here self.now.payload.now c.at) }
    {
        let rule = row_rule(k.cipher);
        let client = self.pick(rule, Cause::NoMac, self.mac, c)?;
        let server = self.pick(rule, Cause::NoMac, self.mac, client.next)?;
        let k = Rows {
            client_mac: client.row,
            server_mac: server.row,
            client_compression: 0,
            server_compression: 0,
            ..k
        };
        self.compressions(k, server.next)
    }

    // The cipher server-to-client string, which is decoded and not used.
    fn other_cipher(&self, k: Rows, c: Cursor) -> Result<(Rows, bool), Refusal>
        ensures { got_rows result ≡ other_cipher (spells_by self.now.names) self.now.side self.now.mac.now self.now.compression.now k (here self.now.payload.now c.at) }
    {
        let (_, c) = c.string(self.payload)?;
        self.macs(k, c)
    }

    // The key and cipher lists, after the kex row, and whether the exchange is strict.
    // Kept: each stage hands the rows so far to the next, 0 for those to come, as the definitions do it (specs/Stages).
    fn keys(&self, kex: Picked, strict: bool, c: Cursor) -> Result<(Rows, bool), Refusal>
        ensures { got_rows result ≡ keys (spells_by self.now.names) self.now.side self.now.key.now self.now.cipher.now self.now.mac.now self.now.compression.now kex.row kex.first strict (here self.now.payload.now c.at) }
    {
        let key = self.pick(Rule::Needed, Cause::NoKey, self.key, c)?;
        let cipher = self.pick(Rule::Needed, Cause::NoCipher, self.cipher, key.next)?;
        let k = Rows {
            kex: kex.row,
            key: key.row,
            cipher: cipher.row,
            client_mac: 0,
            server_mac: 0,
            client_compression: 0,
            server_compression: 0,
            guessed: kex.first & key.first,
            strict,
        };
        self.other_cipher(k, cipher.next)
    }

    // All lists from the kex list on. `asked`: the own preferences hold the own strict name; `strict_row` is the other side's.
    pub fn read_rows(
        &self,
        asked: bool,
        strict_row: u8,
        strict_agreed: bool,
        c: Cursor,
    ) -> Result<(Rows, bool), Refusal>
        ensures { got_rows result ≡ read_rows (spells_by self.now.names) self.now.side self.now.kex.now self.now.key.now self.now.cipher.now self.now.mac.now self.now.compression.now asked strict_row strict_agreed (here self.now.payload.now c.at) }
    {
        let kex = self.pick(Rule::Needed, Cause::NoKex, self.kex, c)?;
        let offered = stands_in(&self.names, strict_row, self.payload, c);
        let strict = asked & offered | strict_agreed;
        self.keys(kex, strict, kex.next)
    }
}
