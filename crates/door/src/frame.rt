// Clear packets.
ghost use Rattle.std.specs.Prelude.{◌≡◌};
ghost use Rattle.put.specs.Written.{buffer};
ghost use Rattle.framing.specs.Clear.{read_packet, packet_of};
ghost use Rattle.framing.specs.Answers.{sealing};
ghost use Rattle.frames.specs.Frames.{frame_of, sealed_of};

pub use frames::{Frame, Sealed};
use framing::Counters;

pub fn harupesat_frame_read(s: &[u8], seqn: u32, bytes: u64) -> Frame
    ensures { result ≡ frame_of (read_packet s.now (record { seqn = seqn; bytes = bytes })) }
{
    framing::read(s, Counters { seqn, bytes }).into()
}

pub fn harupesat_frame_write(payload: &[u8], seqn: u32, bytes: u64, out: &mut [u8]) -> Sealed
    ensures answer { result ≡ sealed_of (sealing out.old payload.now (record { seqn = seqn; bytes = bytes })) }
    ensures bytes { out.new ≡ buffer out.old 0 (packet_of payload.now) }
{
    framing::write(payload, Counters { seqn, bytes }, out).into()
}
