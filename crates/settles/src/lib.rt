// What a side settles on as it crosses the border, and the side by its flag.
#![tactic(auto)]

ghost use Rattle.std.specs.Prelude.{◌≡◌};
ghost use Rattle.settles.specs.Settles.{IsSettled, side_of};

use answer::Refusal;
use choice::Side;
use negotiation::Names;
use shapes::{DONE, REFUSED};

// Kept: `Settled` of include/harupesat.h, field by field.
#[repr(C)]
#[derive(Clone, Copy, Debug, Default, PartialEq, Eq)]
pub struct Settled {
    pub what: u8,
    pub number: u8,
    pub offset: usize,
    pub kex: u8,
    pub key: u8,
    pub cipher: u8,
    pub client_mac: u8,
    pub server_mac: u8,
    pub client_compression: u8,
    pub server_compression: u8,
    pub host_key_is_certificate: bool,
    pub ignore_guessed: bool,
    pub strict_kex: bool,
}

// What a refusal does not say is 0 or false.
impl From<Result<Names, Refusal>> for Settled {
    ghost from_gives = { IsSettled };

    #[tactic(auto, unfolding(crate::specs::Settles::settled_of))]
    fn from(r: Result<Names, Refusal>) -> Settled {
        match r {
            Ok(names) => Settled {
                what: DONE,
                kex: names.kex.0,
                key: names.key.0,
                cipher: names.cipher.0,
                client_mac: names.client_mac.0,
                server_mac: names.server_mac.0,
                client_compression: names.client_compression.0,
                server_compression: names.server_compression.0,
                host_key_is_certificate: names.flags.host_key_is_certificate,
                ignore_guessed: names.flags.ignore_guessed,
                strict_kex: names.flags.strict_kex,
                ..Settled::default()
            },
            Err(refusal) => Settled {
                what: REFUSED,
                number: refusal.cause.number(),
                offset: refusal.offset,
                ..Settled::default()
            },
        }
    }
}

// The side that a flag says.
// Kept: a flag of the C interface (harupesat_read_kex); `From<bool>` would not say that true is the server.
pub fn side_of(server: bool) -> Side
    ensures { result ≡ side_of server }
{
    if server { Side::Server } else { Side::Client }
}
