// What the programs share: what was settled, in words and in numbers, and a refusal in words.
#![tactic(auto)]

ghost use Rattle.std.specs.Prelude.{[], ◌∷◌, ◌≡◌, Some};
ghost use Rattle.answer.specs.Answer.{done};
ghost use Rattle.names.specs.Spelled.{spelled};
ghost use Rattle.put.specs.Runs.{ended, filled};
ghost use Rattle.put.proofs.RunLaws.{Ran};
ghost use Rattle.say.specs.Words.{numbers_of, key_kind, item, yes_or_no, flag_item, words, settled_text, refusal_text};

use answer::Refusal;
use names::{Kind, put_name};
use negotiation::Names;
use put::{after, put_bytes};
use std::fmt;
use text::front;

// A reader's refusal: its number, and where. A type of its own, since what a refusal is called is the programs' alone.
#[derive(Clone, Copy, Debug)]
pub struct Told(pub Refusal);

impl fmt::Display for Told {
    ghost output = { λ t. Some (refusal_text t.0) };

    fn fmt<W: fmt::Write>(&self, f: &mut fmt::Formatter<W>) -> fmt::Result {
        write!(f, "{} at byte {}", self.0.cause.number(), self.0.offset)
    }
}

// The record's values in its own order, a flag as 0 or 1.
pub fn numbers(n: Names) -> [u8; 10]
    ensures { result ≡ numbers_of n }
{
    [
        n.kex.0,
        n.key.0,
        n.cipher.0,
        n.client_mac.0,
        n.server_mac.0,
        n.client_compression.0,
        n.server_compression.0,
        u8::from(n.flags.host_key_is_certificate),
        u8::from(n.flags.ignore_guessed),
        u8::from(n.flags.strict_kex),
    ]
}

fn key_kind(certificate: bool) -> Kind
    ensures { result ≡ key_kind certificate }
{
    if certificate {
        Kind::Certificate
    } else {
        Kind::Key
    }
}

fn yes_or_no(flag: bool) -> &'static [u8]
    ensures { result.now ≡ yes_or_no flag }
{
    if flag { b"yes" } else { b"no" }
}

fn put_label(before: &[u8], label: &[u8], out: &mut [u8], at: usize) -> usize
    ensures { Ran out.old at (done before.now ∷ done label.now ∷ []) result out.new }
{
    let p = after(put_bytes(out, at, before), at);
    after(put_bytes(out, p, label), p)
}

// A name as the tables spell it, after its label.
fn put_item(before: &[u8], label: &[u8], kind: Kind, number: u8, out: &mut [u8], at: usize) -> usize
    ensures { Ran out.old at (item before.now label.now (spelled kind number)) result out.new }
{
    let p = put_label(before, label, out, at);
    after(put_name(kind, number, out, p), p)
}

fn put_flag(before: &[u8], label: &[u8], flag: bool, out: &mut [u8], at: usize) -> usize
    ensures { Ran out.old at (flag_item before.now label.now flag) result out.new }
{
    let p = put_label(before, label, out, at);
    after(put_bytes(out, p, yes_or_no(flag)), p)
}

// Kept: bytes put one after the other, not `write!`, since each is promised (`words`).
// The record name by name, `before` in front of each. Answers where the text ends; a piece that has no room is left out.
pub fn put_settled(n: Names, before: &[u8], out: &mut [u8]) -> usize
    ensures next { result ≡ ended out.old 0 (words before.now n) }
    ensures bytes { out.new ≡ filled out.old 0 (words before.now n) }
{
    let flags = n.flags;
    let mac = Kind::Mac;
    let key = key_kind(flags.host_key_is_certificate);
    let mut at = put_item(before, b"kex ", Kind::Kex, n.kex.0, out, 0);
    at = put_item(before, b"key ", key, n.key.0, out, at);
    at = put_item(before, b"cipher ", Kind::Cipher, n.cipher.0, out, at);
    at = put_item(before, b"mac to server ", mac, n.client_mac.0, out, at);
    at = put_item(before, b"mac to client ", mac, n.server_mac.0, out, at);
    let compression = Kind::Compression;
    at = put_item(
        before,
        b"compression to server ",
        compression,
        n.client_compression.0,
        out,
        at,
    );
    at = put_item(
        before,
        b"compression to client ",
        compression,
        n.server_compression.0,
        out,
        at,
    );
    at = put_flag(
        before,
        b"certificate ",
        flags.host_key_is_certificate,
        out,
        at,
    );
    at = put_flag(before, b"ignore guess ", flags.ignore_guessed, out, at);
    put_flag(before, b"strict ", flags.strict_kex, out, at)
}

// The record, and what is in front of each of its names, for printing as `put_settled` has it.
#[derive(Clone, Copy, Debug)]
pub struct Settled<'a>(pub Names, pub &'a [u8]);

impl fmt::Display for Settled<'_> {
    ghost output = { λ s. Some (settled_text s.1.now s.0) };

    fn fmt<W: fmt::Write>(&self, f: &mut fmt::Formatter<W>) -> fmt::Result {
        let mut text = [0u8; 1024];
        let end = put_settled(self.0, self.1, &mut text);
        match str::from_utf8(front(&text, end)) {
            Ok(words) => f.write_str(words),
            Err(_) => Err(fmt::Error),
        }
    }
}
