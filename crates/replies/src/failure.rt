// CHANNEL_OPEN_FAILURE (RFC 4254 section 5.1): `fail` and `unknown_type` of the Rust, which are methods of the message and
// use nothing of it but its recipient channel.
ghost use Rattle.std.specs.Prelude.{◌≡◌, ◌+◌, ◌≤◌, length};
ghost use Rattle.put.specs.Written.{written, buffer, put};
ghost use Rattle.replies.specs.Failure.{failure, unknown_type, most_text};

use answer::Cause;
use put::{put_string, put_u8, put_u32};

const CHANNEL_OPEN_FAILURE: u8 = 92;

const SSH_OPEN_UNKNOWN_CHANNEL_TYPE: u8 = 3;

// A longer text is refused with 1.
const MOST_TEXT: usize = 1024;

// All of the payload but the bytes of its text.
const AROUND_TEXT: usize = 19;

fn write(recipient: u32, reason: u8, message: &[u8], out: &mut [u8]) -> Result<usize, Cause>
    requires { (length message.now ≤ most_text) × (19 + length message.now ≤ length out.old) }
    ensures answer { put result ≡ written out.old 0 (failure recipient reason message.now) }
    ensures bytes { out.new ≡ buffer out.old 0 (failure recipient reason message.now) }
{
    let at = put_u8(out, 0, CHANNEL_OPEN_FAILURE)?;
    let at = put_u32(out, at, recipient)?;
    let at = put_u32(out, at, u32::from(reason))?;
    let at = put_string(out, at, message)?;
    put_string(out, at, b"en")
}

pub fn fail(recipient: u32, reason: u8, message: &[u8], out: &mut [u8]) -> Result<usize, Cause>
    ensures answer { put result ≡ written out.old 0 (failure recipient reason message.now) }
    ensures bytes { out.new ≡ buffer out.old 0 (failure recipient reason message.now) }
{
    if MOST_TEXT < message.len() {
        return Err(Cause::TooLong);
    }
    if out.len() < AROUND_TEXT + message.len() {
        return Err(Cause::NoRoom);
    }
    write(recipient, reason, message, out)
}

pub fn unknown_type(recipient: u32, out: &mut [u8]) -> Result<usize, Cause>
    ensures answer { put result ≡ written out.old 0 (unknown_type recipient) }
    ensures bytes { out.new ≡ buffer out.old 0 (unknown_type recipient) }
{
    fail(
        recipient,
        SSH_OPEN_UNKNOWN_CHANNEL_TYPE,
        b"Unknown channel type",
        out,
    )
}
