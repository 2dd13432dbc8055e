// Names, their numbers, and the default lists.
ghost use Rattle.std.specs.Prelude.{◌≡◌};
ghost use Rattle.put.specs.Written.{written, buffer};
ghost use Rattle.names.specs.Spelled.{needs_mac, built_in_integrity};
ghost use Rattle.shapes.specs.Shapes.{written_of};
ghost use Rattle.kinds.specs.Kinds.{name_of, named_of, default_list};
ghost use Rattle.kinds.specs.Numbers.{numbered, truth_of};

use kinds::{Number, Truth};
use shapes::Written;

#[unsafe(no_mangle)]
pub extern "C" fn harupesat_spelling(kind: u8, number: u8, out: &mut [u8]) -> Written
    ensures answer { result ≡ written_of (written out.old 0 (name_of kind number)) }
    ensures bytes { out.new ≡ buffer out.old 0 (name_of kind number) }
{
    door::name::harupesat_spelling(kind, number, out)
}

#[unsafe(no_mangle)]
pub extern "C" fn harupesat_lookup(kind: u8, name: &[u8]) -> Number
    ensures { result ≡ numbered (named_of kind name.now) }
{
    door::name::harupesat_lookup(kind, name)
}

#[unsafe(no_mangle)]
pub extern "C" fn harupesat_needs_mac(cipher: u8) -> Truth
    ensures { result ≡ truth_of (needs_mac cipher) }
{
    door::name::harupesat_needs_mac(cipher)
}

#[unsafe(no_mangle)]
pub extern "C" fn harupesat_built_in_integrity(cipher: u8) -> Truth
    ensures { result ≡ truth_of (built_in_integrity cipher) }
{
    door::name::harupesat_built_in_integrity(cipher)
}

#[unsafe(no_mangle)]
pub extern "C" fn harupesat_default_list(kind: u8, out: &mut [u8]) -> Written
    ensures answer { result ≡ written_of (written out.old 0 (default_list kind)) }
    ensures bytes { out.new ≡ buffer out.old 0 (default_list kind) }
{
    door::name::harupesat_default_list(kind, out)
}
