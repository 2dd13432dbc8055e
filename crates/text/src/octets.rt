// UTF-8 (RFC 3629).
ghost use Rattle.std.specs.Prelude.{◌≡◌};
ghost use Rattle.text.specs.Utf8.{utf8 as well_formed};

// US-ASCII, which nearly all text is, is passed by its highest byte alone.
#[tactic(auto, using(crate::proofs::Utf8Laws::low_utf8))]
pub fn utf8(s: &[u8]) -> bool
    ensures { result ≡ well_formed s.now }
{
    crate::highest(s) < 128 || str::from_utf8(s).is_ok()
}
