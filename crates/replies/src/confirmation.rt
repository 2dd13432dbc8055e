// CHANNEL_OPEN_CONFIRMATION (RFC 4254 section 5.1).
ghost use Rattle.std.specs.Prelude.{◌≡◌};
ghost use Rattle.replies.specs.Confirmation.{read_confirmation};
ghost use Rattle.replies.specs.Answers.{got_confirmation};

use crate::ChannelOpenConfirmation;
use crate::offer::{MOST_BODY, read_offer};
use answer::{Cause, Refusal};
use wire::Cursor;

impl ChannelOpenConfirmation {
    // What a channel type adds after the four numbers is not looked at.
    pub fn parse(body: &[u8]) -> Result<ChannelOpenConfirmation, Refusal>
        ensures { got_confirmation result ≡ read_confirmation body.now }
    {
        if MOST_BODY < body.len() {
            return Err(Cause::TooLong.at(0));
        }
        let (recipient_channel, c) = Cursor { at: 0 }.u32(body)?;
        let (offer, _) = read_offer(body, c)?;
        Ok(ChannelOpenConfirmation {
            recipient_channel,
            sender_channel: offer.sender_channel,
            initial_window_size: offer.initial_window_size,
            maximum_packet_size: offer.maximum_packet_size,
        })
    }
}
