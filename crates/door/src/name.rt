// Names, their numbers, and the default lists.
ghost use Rattle.std.specs.Prelude.{◌≡◌};
ghost use Rattle.put.specs.Written.{written, buffer};
ghost use Rattle.names.specs.Spelled.{needs_mac, built_in_integrity};
ghost use Rattle.shapes.specs.Shapes.{written_of};
ghost use Rattle.kinds.specs.Kinds.{name_of, named_of, default_list};
ghost use Rattle.kinds.specs.Numbers.{numbered, truth_of};

pub use kinds::{Number, Truth};
use names::CipherId;
use shapes::Written;

pub fn harupesat_spelling(kind: u8, number: u8, out: &mut [u8]) -> Written
    ensures answer { result ≡ written_of (written out.old 0 (name_of kind number)) }
    ensures bytes { out.new ≡ buffer out.old 0 (name_of kind number) }
{
    kinds::spell(kind, number, out).into()
}

pub fn harupesat_lookup(kind: u8, name: &[u8]) -> Number
    ensures { result ≡ numbered (named_of kind name.now) }
{
    kinds::number_of(kind, name)
}

pub fn harupesat_needs_mac(cipher: u8) -> Truth
    ensures { result ≡ truth_of (needs_mac cipher) }
{
    CipherId(cipher).needs_mac().into()
}

pub fn harupesat_built_in_integrity(cipher: u8) -> Truth
    ensures { result ≡ truth_of (built_in_integrity cipher) }
{
    CipherId(cipher).built_in_integrity().into()
}

pub fn harupesat_default_list(kind: u8, out: &mut [u8]) -> Written
    ensures answer { result ≡ written_of (written out.old 0 (default_list kind)) }
    ensures bytes { out.new ≡ buffer out.old 0 (default_list kind) }
{
    kinds::default_list(kind, out).into()
}
