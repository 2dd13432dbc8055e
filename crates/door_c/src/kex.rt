// KEXINIT, written and read.
// Kept: the ten lists are parameters, since C has no struct of slices (harupesat_write_kex, harupesat_read_kex).
ghost use Rattle.std.specs.Prelude.{◌≡◌};
ghost use Rattle.put.specs.Written.{written, buffer};
ghost use Rattle.judging.specs.Tables.{Tables};
ghost use Rattle.negotiation.specs.Read.{read_kex};
ghost use Rattle.negotiation.specs.Written.{write_kex};
ghost use Rattle.shapes.specs.Shapes.{written_of};
ghost use Rattle.settles.specs.Settles.{settled_of, side_of};

use settles::Settled;
use shapes::Written;

#[unsafe(no_mangle)]
pub extern "C" fn harupesat_write_kex(
    server: bool,
    kex: &[u8],
    key: &[u8],
    certificate: &[u8],
    cipher: &[u8],
    mac: &[u8],
    compression: &[u8],
    key_kinds: &[u8],
    key_ids: &[u32],
    cert_kinds: &[u8],
    cert_ids: &[u32],
    cookie: &[u8],
    out: &mut [u8],
) -> Written
    ensures answer { result ≡ written_of (written out.old 0 (write_kex
        (record {
          side = side_of server;
          kex = kex.now;
          key = key.now;
          certificate = certificate.now;
          cipher = cipher.now;
          mac = mac.now;
          compression = compression.now;
          key_kinds = key_kinds.now;
          key_ids = key_ids.now;
          cert_kinds = cert_kinds.now;
          cert_ids = cert_ids.now;
        })
        cookie.now)) }
    ensures bytes { out.new ≡ buffer out.old 0 (write_kex
        (record {
          side = side_of server;
          kex = kex.now;
          key = key.now;
          certificate = certificate.now;
          cipher = cipher.now;
          mac = mac.now;
          compression = compression.now;
          key_kinds = key_kinds.now;
          key_ids = key_ids.now;
          cert_kinds = cert_kinds.now;
          cert_ids = cert_ids.now;
        })
        cookie.now) }
{
    door::kex::harupesat_write_kex(
        server,
        kex,
        key,
        certificate,
        cipher,
        mac,
        compression,
        key_kinds,
        key_ids,
        cert_kinds,
        cert_ids,
        cookie,
        out,
    )
}

#[unsafe(no_mangle)]
pub extern "C" fn harupesat_read_kex(
    server: bool,
    kex: &[u8],
    key: &[u8],
    certificate: &[u8],
    cipher: &[u8],
    mac: &[u8],
    compression: &[u8],
    key_kinds: &[u8],
    key_ids: &[u32],
    cert_kinds: &[u8],
    cert_ids: &[u32],
    strict_agreed: bool,
    payload: &[u8],
) -> Settled
    ensures { result ≡ settled_of (read_kex
        (record {
          side = side_of server;
          kex = kex.now;
          key = key.now;
          certificate = certificate.now;
          cipher = cipher.now;
          mac = mac.now;
          compression = compression.now;
          key_kinds = key_kinds.now;
          key_ids = key_ids.now;
          cert_kinds = cert_kinds.now;
          cert_ids = cert_ids.now;
        })
        strict_agreed payload.now) }
{
    door::kex::harupesat_read_kex(
        server,
        kex,
        key,
        certificate,
        cipher,
        mac,
        compression,
        key_kinds,
        key_ids,
        cert_kinds,
        cert_ids,
        strict_agreed,
        payload,
    )
}
