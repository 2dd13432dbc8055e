// Channel opening (RFC 4254 sections 5.1, 6.3.2 and 7.2): src/parsing.rs of russh. A string of a record is a place in the
// body that was read; `Place::show` hands each of them back as the part of the lent slice that it is.
#![tactic(auto)]

ghost use Rattle.std.specs.Prelude.{◌≡◌, ◌+◌, IfOk};
ghost use Rattle.wire.specs.Shown.{shown, shown_part};
ghost use Rattle.channels.specs.Open.{read_open, rest_of, got_open};

use answer::{Cause, Refusal};
use layouts::{ChannelType, channel_type};
use replies::offer::{MOST_BODY, read_offer};
use wire::{Cursor, Place};

// Named, as in the Rust, for whoever answers: the opening's sender is the recipient of the answer.
#[derive(Clone, Copy, Debug, PartialEq, Eq)]
pub struct OpenChannelMessage {
    pub typ: ChannelType,
    pub recipient_channel: u32,
    pub recipient_window_size: u32,
    pub recipient_maximum_packet_size: u32,
}

// Where the rest of an unknown type's body stands; no byte at the front of a known one's.
#[tactic(auto, using(crate::proofs::RestLaws::rest_laws))]
fn rest_of(typ: ChannelType) -> Place
    ensures { result ≡ rest_of typ }
{
    match typ {
        ChannelType::Unknown { typ: _, rest } => rest,
        _ => Place { start: 0, len: 0 },
    }
}

impl OpenChannelMessage {
    // The type is looked at last: a maximum packet of 0 is refused whatever the type is.
    pub fn parse(body: &[u8]) -> Result<OpenChannelMessage, Refusal>
        ensures { got_open result ≡ read_open body.now }
    {
        if MOST_BODY < body.len() {
            return Err(Cause::TooLong.at(0));
        }
        let (name, c) = Cursor { at: 0 }.string(body)?;
        let (offer, next) = read_offer(body, c)?;
        let typ = channel_type(body, &body[name.start..c.at], name, next)?;
        Ok(OpenChannelMessage {
            typ,
            recipient_channel: offer.sender_channel,
            recipient_window_size: offer.initial_window_size,
            recipient_maximum_packet_size: offer.maximum_packet_size,
        })
    }

    // What follows the four fields of an unknown type, as the part of the lent slice that it is; of a known type no byte.
    pub fn rest(self, body: &[u8]) -> Result<&[u8], Cause>
        ensures part { shown_part result ≡ shown body.now (rest_of self.typ) }
        ensures block { IfOk result (λ part. part.ref_ptr.0 ≡ body.entry.ref_ptr.0) }
        ensures place { IfOk result (λ part. part.ref_ptr.1 ≡ body.entry.ref_ptr.1 + (rest_of self.typ).start) }
    {
        rest_of(self.typ).show(body)
    }
}
