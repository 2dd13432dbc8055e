// Channel opening and its confirmation.
use crate::print::Text;
use door::channel::{Confirmation, Open, harupesat_read_confirmation, harupesat_read_open};
use std::io;
use std::io::Write;
use text::front;

fn opened(to: &mut impl Write, m: Open) -> io::Result<()> {
    write!(
        to,
        ": what {} number {} offset {}",
        m.what, m.number, m.offset
    )?;
    write!(
        to,
        " typ {} recipient_channel {}",
        m.typ, m.recipient_channel
    )?;
    write!(to, " recipient_window_size {}", m.recipient_window_size)?;
    write!(
        to,
        " recipient_maximum_packet_size {}",
        m.recipient_maximum_packet_size
    )?;
    write!(to, " text_start {} text_len {}", m.text_start, m.text_len)?;
    write!(
        to,
        " port {} originator_start {}",
        m.port, m.originator_start
    )?;
    write!(to, " originator_len {}", m.originator_len)?;
    write!(to, " originator_port {}", m.originator_port)?;
    writeln!(to, " rest_start {} rest_len {}", m.rest_start, m.rest_len)
}

fn opens(to: &mut impl Write, body: &[u8]) -> io::Result<()> {
    write!(to, "read_open {}", Text(body))?;
    opened(to, harupesat_read_open(body))
}

// Each type once; sender 258, window 2097152, maximum packet 32768.
pub fn open(to: &mut impl Write) -> io::Result<()> {
    known(to)?;
    openssh(to)
}

fn known(to: &mut impl Write) -> io::Result<()> {
    opens(
        to,
        b"\x00\x00\x00\x07session\x00\x00\x01\x02\x00\x20\x00\x00\x00\x00\x80\x00",
    )?;
    opens(
        to,
        b"\x00\x00\x00\x03x11\x00\x00\x01\x02\x00\x20\x00\x00\x00\x00\x80\x00\x00\x00\x00\x0810.0.0.9\x00\x00\x17\x7A",
    )?;
    opens(
        to,
        b"\x00\x00\x00\x0Cdirect-tcpip\x00\x00\x01\x02\x00\x20\x00\x00\x00\x00\x80\x00\x00\x00\x00\x0Bexample.org\x00\x00\x01\xBB\x00\x00\x00\x0810.0.0.9\x00\x00\xC8\x22",
    )?;
    opens(
        to,
        b"\x00\x00\x00\x0Fforwarded-tcpip\x00\x00\x01\x02\x00\x20\x00\x00\x00\x00\x80\x00\x00\x00\x00\x09localhost\x00\x00\x1F\x90\x00\x00\x00\x0A192.0.2.77\x00\x00\x9C\x40",
    )
}

fn openssh(to: &mut impl Write) -> io::Result<()> {
    opens(
        to,
        b"\x00\x00\x00\x1Edirect-streamlocal@openssh.com\x00\x00\x01\x02\x00\x20\x00\x00\x00\x00\x80\x00\x00\x00\x00\x0B/run/a.sock\x00\x00\x00\x03res\x00\x00\x00\x05",
    )?;
    opens(
        to,
        b"\x00\x00\x00\x21forwarded-streamlocal@openssh.com\x00\x00\x01\x02\x00\x20\x00\x00\x00\x00\x80\x00\x00\x00\x00\x06/run/b\x00\x00\x00\x00",
    )?;
    opens(
        to,
        b"\x00\x00\x00\x16auth-agent@openssh.com\x00\x00\x01\x02\x00\x20\x00\x00\x00\x00\x80\x00",
    )?;
    opens(
        to,
        b"\x00\x00\x00\x0Ftun@openssh.com\x00\x00\x01\x02\x00\x20\x00\x00\x00\x00\x80\x00\x00\x00\x00\x01xyz",
    )?;
    opens(
        to,
        b"\x00\x00\x00\x00\x00\x00\x01\x02\x00\x20\x00\x00\x00\x00\x80\x00",
    )
}

pub fn open_refused(to: &mut impl Write) -> io::Result<()> {
    opens(to, b"")?;
    opens(
        to,
        b"\x00\x00\x00\x07session\x00\x00\x01\x02\x00\x20\x00\x00\x00\x00\x80",
    )?;
    opens(
        to,
        b"\x00\x00\x00\x01\xFF\x00\x00\x01\x02\x00\x20\x00\x00\x00\x00\x00\x00",
    )?;
    opens(
        to,
        b"\x00\x00\x00\x07session\x00\x00\x01\x02\x00\x20\x00\x00\x00\x00\x80\x00\x00",
    )?;
    field_refused(to)
}

fn field_refused(to: &mut impl Write) -> io::Result<()> {
    opens(
        to,
        b"\x00\x00\x00\x07session\x00\x00\x01\x02\x00\x20\x00\x00\x00\x00\x00\x00\x00",
    )?;
    opens(
        to,
        b"\x00\x00\x00\x03tun\x00\x00\x01\x02\x00\x20\x00\x00\x00\x00\x00\x00",
    )?;
    opens(
        to,
        b"\x00\x00\x00\x03x11\x00\x00\x01\x02\x00\x20\x00\x00\x00\x00\x80\x00\x00\x00\x00\x01\xC0\x00\x00\x17\x7A",
    )?;
    opens(
        to,
        b"\x00\x00\x00\x03x11\x00\x00\x01\x02\x00\x20\x00\x00\x00\x00\x80\x00\x00\x00\x00\x0810.0.0.9\x00\x00\x17",
    )
}

fn confirmed(to: &mut impl Write, m: Confirmation) -> io::Result<()> {
    write!(
        to,
        ": what {} number {} offset {}",
        m.what, m.number, m.offset
    )?;
    write!(to, " recipient_channel {}", m.recipient_channel)?;
    write!(to, " sender_channel {}", m.sender_channel)?;
    write!(to, " initial_window_size {}", m.initial_window_size)?;
    writeln!(to, " maximum_packet_size {}", m.maximum_packet_size)
}

fn confirms(to: &mut impl Write, body: &[u8]) -> io::Result<()> {
    write!(to, "read_confirmation {}", Text(body))?;
    confirmed(to, harupesat_read_confirmation(body))
}

pub fn confirm(to: &mut impl Write) -> io::Result<()> {
    confirms(
        to,
        b"\x00\x00\x00\x07\x00\x00\x01\x02\x00\x20\x00\x00\x00\x00\x80\x00",
    )?;
    confirms(
        to,
        b"\x00\x00\x00\x07\x00\x00\x01\x02\x00\x20\x00\x00\x00\x00\x80\x00later",
    )?;
    confirms(
        to,
        b"\x00\x00\x00\x07\x00\x00\x01\x02\x00\x20\x00\x00\x00\x00\x00\x00",
    )?;
    confirms(
        to,
        b"\x00\x00\x00\x07\x00\x00\x01\x02\x00\x20\x00\x00\x00\x00\x80",
    )
}

fn long_body(to: &mut impl Write, body: &[u8]) -> io::Result<()> {
    for n in [262175, 262176] {
        write!(to, "read_open {n}")?;
        opened(to, harupesat_read_open(front(body, n)))?;
    }
    for n in [262175, 262176] {
        write!(to, "read_confirmation {n}")?;
        confirmed(to, harupesat_read_confirmation(front(body, n)))?;
    }
    Ok(())
}

// "Channel body over 262,175": an empty type, or recipient 0, and maximum packet 1.
pub fn long(to: &mut impl Write) -> io::Result<()> {
    let mut body = [0u8; 262176];
    body[15] = 1;
    long_body(to, &body)
}
