// The fields that an opening and a confirmation share.
ghost use Rattle.std.specs.Prelude.{◌≡◌};
ghost use Rattle.wire.specs.Fields.{here};
ghost use Rattle.replies.specs.Confirmation.{offer};
ghost use Rattle.replies.specs.Answers.{got_offer};

use answer::{Cause, Refusal};
use wire::Cursor;

// A longer body is refused with 1.
pub const MOST_BODY: usize = 262175;

// What the sender of either message grants.
#[derive(Clone, Copy, Debug, PartialEq, Eq)]
pub struct Offer {
    pub sender_channel: u32,
    pub initial_window_size: u32,
    pub maximum_packet_size: u32,
}

// A maximum packet size of 0 could never be satisfied: writes would stall for ever (the Rust's own reason). It is refused
// where it stands.
pub fn read_offer(body: &[u8], c: Cursor) -> Result<(Offer, Cursor), Refusal>
    ensures { got_offer body.now result ≡ offer (here body.now c.at) }
{
    let (sender_channel, c) = c.u32(body)?;
    let (initial_window_size, maximum) = c.u32(body)?;
    let (maximum_packet_size, c) = maximum.u32(body)?;
    if maximum_packet_size == 0 {
        return Err(Cause::Inconsistent.at(maximum.at));
    }
    let offer = Offer {
        sender_channel,
        initial_window_size,
        maximum_packet_size,
    };
    Ok((offer, c))
}
