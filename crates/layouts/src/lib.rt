// What each channel type carries after the four fields of an opening (RFC 4254 sections 6.3.2 and 7.2; the @openssh.com types
// follow src/parsing.rs of russh).
#![tactic(auto)]

ghost use Rattle.std.specs.Prelude.{◌≡◌};
ghost use Rattle.answer.specs.Answer.{outcome};
ghost use Rattle.wire.specs.Fields.{here};
ghost use Rattle.layouts.specs.declared.ChannelType.{ChannelType};
ghost use Rattle.layouts.specs.declared.TcpChannelInfo.{TcpChannelInfo};
ghost use Rattle.layouts.specs.Types.{
  exact as exactly,
  x11 as x11_fields,
  tcpip,
  direct_stream_local,
  forwarded_stream_local,
  left_at,
  openssh_type,
  channel_type,
  got_type,
};

use answer::Refusal;
use wire::{Cursor, Place};

#[derive(Clone, Copy, Debug, PartialEq, Eq)]
pub struct TcpChannelInfo {
    pub host_to_connect: Place,
    pub port_to_connect: u32,
    pub originator_address: Place,
    pub originator_port: u32,
}

#[derive(Clone, Copy, Debug, PartialEq, Eq)]
pub struct StreamLocalChannelInfo {
    pub socket_path: Place,
}

// `rest` is what follows the four fields of a type that is not known.
#[derive(Clone, Copy, Debug, PartialEq, Eq)]
pub enum ChannelType {
    Session,
    X11 {
        originator_address: Place,
        originator_port: u32,
    },
    DirectTcpip(TcpChannelInfo),
    DirectStreamLocal(StreamLocalChannelInfo),
    ForwardedTcpIp(TcpChannelInfo),
    ForwardedStreamLocal(StreamLocalChannelInfo),
    AgentForward,
    Unknown {
        typ: Place,
        rest: Place,
    },
}

fn exact(body: &[u8], c: Cursor, typ: ChannelType) -> Result<ChannelType, Refusal>
    ensures { got_type result ≡ exactly typ (here body.now c.at) }
{
    c.end(body)?;
    Ok(typ)
}

fn x11(body: &[u8], c: Cursor) -> Result<ChannelType, Refusal>
    ensures { got_type result ≡ x11_fields (here body.now c.at) }
{
    let (originator_address, c) = c.string(body)?;
    let (originator_port, c) = c.u32(body)?;
    let typ = ChannelType::X11 {
        originator_address,
        originator_port,
    };
    exact(body, c, typ)
}

// What the two types of that layout carry, up to the body's end.
fn tcp_info(body: &[u8], c: Cursor) -> Result<TcpChannelInfo, Refusal>
    ensures { (made : TcpChannelInfo → ChannelType) → outcome made result ≡ tcpip made (here body.now c.at) }
{
    let (host_to_connect, c) = c.string(body)?;
    let (port_to_connect, c) = c.u32(body)?;
    let (originator_address, c) = c.string(body)?;
    let (originator_port, c) = c.u32(body)?;
    c.end(body)?;
    Ok(TcpChannelInfo {
        host_to_connect,
        port_to_connect,
        originator_address,
        originator_port,
    })
}

// The reserved fields of the two streamlocal types are read and judged, and not handed over.
// Kept: two readers, since a flag for the one field by which they differ is no plainer.
fn direct_stream_local(body: &[u8], c: Cursor) -> Result<ChannelType, Refusal>
    ensures { got_type result ≡ direct_stream_local (here body.now c.at) }
{
    let (socket_path, c) = c.string(body)?;
    let (_, c) = c.string(body)?;
    let (_, c) = c.u32(body)?;
    let info = StreamLocalChannelInfo { socket_path };
    exact(body, c, ChannelType::DirectStreamLocal(info))
}

fn forwarded_stream_local(body: &[u8], c: Cursor) -> Result<ChannelType, Refusal>
    ensures { got_type result ≡ forwarded_stream_local (here body.now c.at) }
{
    let (socket_path, c) = c.string(body)?;
    let (_, c) = c.string(body)?;
    let info = StreamLocalChannelInfo { socket_path };
    exact(body, c, ChannelType::ForwardedStreamLocal(info))
}

// All that is left of the body.
fn left(body: &[u8], c: Cursor) -> Place
    ensures { result ≡ left_at (here body.now c.at) }
{
    let rest = c.rest(body);
    Place {
        start: c.at,
        len: rest.len(),
    }
}

// Kept: `text::same`, since of a match on the byte strings the proof of the last arm did not close, and `==` wants
// `.as_slice()` at each; two functions, since of one the search for a proof takes too long.
fn openssh_type(body: &[u8], name: &[u8], typ: Place, c: Cursor) -> Result<ChannelType, Refusal>
    ensures { got_type result ≡ openssh_type (record { place = typ; bytes = name.now }) (here body.now c.at) }
{
    if text::same(name, b"direct-streamlocal@openssh.com") {
        direct_stream_local(body, c)
    } else if text::same(name, b"forwarded-streamlocal@openssh.com") {
        forwarded_stream_local(body, c)
    } else if text::same(name, b"auth-agent@openssh.com") {
        exact(body, c, ChannelType::AgentForward)
    } else {
        Ok(ChannelType::Unknown {
            typ,
            rest: left(body, c),
        })
    }
}

// The types of RFC 4254, then those of OpenSSH. `name` is the part of the body at `typ`, and `c` stands after the four fields
// of every opening.
pub fn channel_type(body: &[u8], name: &[u8], typ: Place, c: Cursor) -> Result<ChannelType, Refusal>
    ensures { got_type result ≡ channel_type (record { place = typ; bytes = name.now }) (here body.now c.at) }
{
    if text::same(name, b"session") {
        exact(body, c, ChannelType::Session)
    } else if text::same(name, b"x11") {
        x11(body, c)
    } else if text::same(name, b"direct-tcpip") {
        tcp_info(body, c).map(ChannelType::DirectTcpip)
    } else if text::same(name, b"forwarded-tcpip") {
        tcp_info(body, c).map(ChannelType::ForwardedTcpIp)
    } else {
        openssh_type(body, name, typ, c)
    }
}
