// A place, judged.
ghost use Rattle.std.specs.Prelude.{◌≡◌};
ghost use Rattle.wire.specs.Shown.{shown};
ghost use Rattle.shapes.specs.Shapes.{shown_of};

use shapes::Shown;

#[unsafe(no_mangle)]
pub extern "C" fn harupesat_show(s: &[u8], start: usize, len: usize) -> Shown
    ensures { result ≡ shown_of (record { start = start; len = len })
        (shown s.now (record { start = start; len = len })) }
{
    door::place::harupesat_show(s, start, len)
}
