// What a function of ours answered, told in the words of a recorded line.
use crate::tables::part;
use crate::tell::Quoted;
use answer::{Cause, Refusal};
use channels::OpenChannelMessage;
use framing::{Counters, Packet};
use layouts::{ChannelType, StreamLocalChannelInfo, TcpChannelInfo};
use negotiation::Names;
use replies::ChannelOpenConfirmation;
use std::fmt;

// What was accepted, with the bytes that its places lie in.
#[derive(Clone, Copy, Debug)]
pub enum Values<'a> {
    Settled(Names),
    Bytes(&'a [u8]),
    Whole(Packet, &'a [u8]),
    Sealed(Counters, &'a [u8]),
    Opening(OpenChannelMessage, &'a [u8]),
    Confirmed(ChannelOpenConfirmation),
}

// A reader's refusal says where.
#[derive(Clone, Copy, Debug)]
pub enum Answer<'a> {
    Accepted(Values<'a>),
    Need(usize),
    Refused { number: u8, offset: Option<usize> },
}

impl From<Cause> for Answer<'_> {
    fn from(cause: Cause) -> Self {
        Answer::Refused {
            number: cause.number(),
            offset: None,
        }
    }
}

impl From<Refusal> for Answer<'_> {
    fn from(why: Refusal) -> Self {
        Answer::Refused {
            number: why.cause.number(),
            offset: Some(why.offset),
        }
    }
}

impl fmt::Display for Answer<'_> {
    fn fmt<W: fmt::Write>(&self, f: &mut fmt::Formatter<W>) -> fmt::Result {
        match *self {
            Answer::Accepted(values) => write!(f, "ok{values}"),
            Answer::Need(n) => write!(f, "need {n}"),
            Answer::Refused { number, offset } => {
                write!(f, "no {number}")?;
                match offset {
                    Some(offset) => write!(f, " {offset}"),
                    None => Ok(()),
                }
            }
        }
    }
}

impl fmt::Display for Values<'_> {
    fn fmt<W: fmt::Write>(&self, f: &mut fmt::Formatter<W>) -> fmt::Result {
        match *self {
            Values::Settled(names) => {
                for value in say::numbers(names) {
                    write!(f, " {value}")?;
                }
                Ok(())
            }
            Values::Bytes(x) => write!(f, " {}", Quoted(x)),
            Values::Whole(p, s) => {
                write!(f, " {} {} {}", Quoted(part(s, p.payload)), p.end, p.taken)?;
                write!(f, " {} {}", p.counters.seqn, p.counters.bytes)
            }
            Values::Sealed(k, x) => write!(f, " {} {} {}", Quoted(x), k.seqn, k.bytes),
            Values::Opening(m, body) => {
                write!(f, " {}", m.recipient_channel)?;
                write!(f, " {}", m.recipient_window_size)?;
                write!(f, " {}", m.recipient_maximum_packet_size)?;
                write!(f, " {}", Typed(m.typ, body))
            }
            Values::Confirmed(m) => {
                write!(f, " {} {}", m.recipient_channel, m.sender_channel)?;
                write!(f, " {} {}", m.initial_window_size, m.maximum_packet_size)
            }
        }
    }
}

// A channel type and its fields.
#[derive(Clone, Copy, Debug)]
struct Typed<'a>(ChannelType, &'a [u8]);

impl fmt::Display for Typed<'_> {
    fn fmt<W: fmt::Write>(&self, f: &mut fmt::Formatter<W>) -> fmt::Result {
        let body = self.1;
        match self.0 {
            ChannelType::Session => write!(f, "session"),
            ChannelType::X11 {
                originator_address,
                originator_port,
            } => {
                let address = Quoted(part(body, originator_address));
                write!(f, "x11 {address} {originator_port}")
            }
            ChannelType::DirectTcpip(t) => write!(f, "direct-tcpip {}", Tcp(t, body)),
            ChannelType::DirectStreamLocal(t) => write!(f, "direct-streamlocal {}", path(t, body)),
            ChannelType::ForwardedTcpIp(t) => write!(f, "forwarded-tcpip {}", Tcp(t, body)),
            ChannelType::ForwardedStreamLocal(t) => {
                write!(f, "forwarded-streamlocal {}", path(t, body))
            }
            ChannelType::AgentForward => write!(f, "auth-agent"),
            ChannelType::Unknown { typ, rest } => {
                let typ = Quoted(part(body, typ));
                write!(f, "unknown {typ} {}", Quoted(part(body, rest)))
            }
        }
    }
}

#[derive(Clone, Copy, Debug)]
struct Tcp<'a>(TcpChannelInfo, &'a [u8]);

impl fmt::Display for Tcp<'_> {
    fn fmt<W: fmt::Write>(&self, f: &mut fmt::Formatter<W>) -> fmt::Result {
        let host = Quoted(part(self.1, self.0.host_to_connect));
        let originator = Quoted(part(self.1, self.0.originator_address));
        write!(f, "{host} {}", self.0.port_to_connect)?;
        write!(f, " {originator} {}", self.0.originator_port)
    }
}

fn path(t: StreamLocalChannelInfo, body: &[u8]) -> Quoted<'_> {
    Quoted(part(body, t.socket_path))
}
