// Channel opening.
ghost use Rattle.std.specs.Prelude.{◌≡◌};
ghost use Rattle.put.specs.Written.{written, buffer};
ghost use Rattle.replies.specs.Confirmation.{read_confirmation};
ghost use Rattle.replies.specs.Failure.{failure, unknown_type};
ghost use Rattle.channels.specs.Open.{read_open};
ghost use Rattle.shapes.specs.Shapes.{written_of};
ghost use Rattle.openings.specs.Openings.{open_of, confirmation_of};

use channels::OpenChannelMessage;
pub use openings::{Confirmation, Open};
use replies::ChannelOpenConfirmation;
use shapes::Written;

pub fn harupesat_read_open(body: &[u8]) -> Open
    ensures { result ≡ open_of (read_open body.now) }
{
    OpenChannelMessage::parse(body).into()
}

pub fn harupesat_read_confirmation(body: &[u8]) -> Confirmation
    ensures { result ≡ confirmation_of (read_confirmation body.now) }
{
    ChannelOpenConfirmation::parse(body).into()
}

pub fn harupesat_fail(recipient: u32, reason: u8, text: &[u8], out: &mut [u8]) -> Written
    ensures answer { result ≡ written_of (written out.old 0 (failure recipient reason text.now)) }
    ensures bytes { out.new ≡ buffer out.old 0 (failure recipient reason text.now) }
{
    replies::fail(recipient, reason, text, out).into()
}

pub fn harupesat_unknown_type(recipient: u32, out: &mut [u8]) -> Written
    ensures answer { result ≡ written_of (written out.old 0 (unknown_type recipient)) }
    ensures bytes { out.new ≡ buffer out.old 0 (unknown_type recipient) }
{
    replies::unknown_type(recipient, out).into()
}
