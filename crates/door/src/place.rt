// A place, judged.
ghost use Rattle.std.specs.Prelude.{◌≡◌};
ghost use Rattle.wire.specs.Shown.{shown};
ghost use Rattle.shapes.specs.Shapes.{shown_of};

pub use shapes::Shown;
use wire::Place;

pub fn harupesat_show(s: &[u8], start: usize, len: usize) -> Shown
    ensures { result ≡ shown_of (record { start = start; len = len })
        (shown s.now (record { start = start; len = len })) }
{
    shapes::judge_place(s, Place { start, len })
}
