// Channel opening as it crosses the border: an opening by its type, and a confirmation.
#![tactic(auto)]

ghost use Rattle.std.specs.Prelude.{◌≡◌};
ghost use Rattle.replies.specs.Answers.{got_confirmation};
ghost use Rattle.channels.specs.Open.{got_open};
ghost use Rattle.openings.specs.Openings.{no_place, open_of, tcp_open, text_open, message_of, confirmation_of};

use answer::Refusal;
use channels::OpenChannelMessage;
use layouts::{ChannelType, TcpChannelInfo};
use replies::ChannelOpenConfirmation;
use shapes::{DONE, REFUSED};
use wire::Place;

// Kept: `Open` and `Confirmation` of include/harupesat.h, field by field; `typ` is a number, as the types are counted there.
#[repr(C)]
#[derive(Clone, Copy, Debug, Default, PartialEq, Eq)]
pub struct Open {
    pub what: u8,
    pub number: u8,
    pub offset: usize,
    pub typ: u8,
    pub recipient_channel: u32,
    pub recipient_window_size: u32,
    pub recipient_maximum_packet_size: u32,
    pub text_start: usize,
    pub text_len: usize,
    pub port: u32,
    pub originator_start: usize,
    pub originator_len: usize,
    pub originator_port: u32,
    pub rest_start: usize,
    pub rest_len: usize,
}

#[repr(C)]
#[derive(Clone, Copy, Debug, Default, PartialEq, Eq)]
pub struct Confirmation {
    pub what: u8,
    pub number: u8,
    pub offset: usize,
    pub recipient_channel: u32,
    pub sender_channel: u32,
    pub initial_window_size: u32,
    pub maximum_packet_size: u32,
}

// What every opening has beside its type.
#[tactic(auto, unfolding(crate::specs::Openings::open_with))]
fn bare_open(typ: u8, m: OpenChannelMessage) -> Open
    ensures { result ≡ text_open typ m no_place no_place }
{
    Open {
        what: DONE,
        typ,
        recipient_channel: m.recipient_channel,
        recipient_window_size: m.recipient_window_size,
        recipient_maximum_packet_size: m.recipient_maximum_packet_size,
        ..Open::default()
    }
}

// A path, or the name of an unknown type.
#[tactic(auto, unfolding(crate::specs::Openings::open_with))]
fn text_open(typ: u8, m: OpenChannelMessage, text: Place) -> Open
    ensures { result ≡ text_open typ m text no_place }
{
    Open {
        text_start: text.start,
        text_len: text.len,
        ..bare_open(typ, m)
    }
}

#[tactic(auto, unfolding(crate::specs::Openings::open_with))]
fn tcp_open(typ: u8, m: OpenChannelMessage, i: TcpChannelInfo) -> Open
    ensures { result ≡ tcp_open typ m i }
{
    let host = i.host_to_connect;
    let originator = i.originator_address;
    Open {
        port: i.port_to_connect,
        originator_start: originator.start,
        originator_len: originator.len,
        originator_port: i.originator_port,
        ..text_open(typ, m, host)
    }
}

#[tactic(auto, unfolding(crate::specs::Openings::open_with, crate::specs::Openings::message_of))]
fn message_of(m: OpenChannelMessage) -> Open
    ensures { result ≡ message_of m.typ m }
{
    match m.typ {
        ChannelType::Session => bare_open(0, m),
        ChannelType::X11 {
            originator_address,
            originator_port,
        } => Open {
            originator_start: originator_address.start,
            originator_len: originator_address.len,
            originator_port,
            ..bare_open(1, m)
        },
        ChannelType::DirectTcpip(i) => tcp_open(2, m, i),
        ChannelType::DirectStreamLocal(i) => text_open(3, m, i.socket_path),
        ChannelType::ForwardedTcpIp(i) => tcp_open(4, m, i),
        ChannelType::ForwardedStreamLocal(i) => text_open(5, m, i.socket_path),
        ChannelType::AgentForward => bare_open(6, m),
        ChannelType::Unknown { typ: name, rest } => Open {
            rest_start: rest.start,
            rest_len: rest.len,
            ..text_open(7, m, name)
        },
    }
}

impl From<Result<OpenChannelMessage, Refusal>> for Open {
    ghost from_gives = { λ r o. o ≡ open_of (got_open r) };

    #[tactic(auto, unfolding(crate::specs::Openings::open_of))]
    fn from(r: Result<OpenChannelMessage, Refusal>) -> Open {
        match r {
            Ok(m) => message_of(m),
            Err(refusal) => Open {
                what: REFUSED,
                number: refusal.cause.number(),
                offset: refusal.offset,
                ..Open::default()
            },
        }
    }
}

impl From<Result<ChannelOpenConfirmation, Refusal>> for Confirmation {
    ghost from_gives = { λ r o. o ≡ confirmation_of (got_confirmation r) };

    #[tactic(auto, unfolding(crate::specs::Openings::confirmation_of))]
    fn from(r: Result<ChannelOpenConfirmation, Refusal>) -> Confirmation {
        match r {
            Ok(m) => Confirmation {
                what: DONE,
                recipient_channel: m.recipient_channel,
                sender_channel: m.sender_channel,
                initial_window_size: m.initial_window_size,
                maximum_packet_size: m.maximum_packet_size,
                ..Confirmation::default()
            },
            Err(refusal) => Confirmation {
                what: REFUSED,
                number: refusal.cause.number(),
                offset: refusal.offset,
                ..Confirmation::default()
            },
        }
    }
}
