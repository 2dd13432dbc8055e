// Where a run of bytes stands in the slice that was lent, and the part of the caller's slice that it is.
ghost use Rattle.std.specs.Prelude.{◌≡◌, ◌+◌, IfOk};
ghost use Rattle.wire.specs.Shown.{shown, shown_part};

use answer::Cause;

#[derive(Clone, Copy, Debug, PartialEq, Eq)]
pub struct Place {
    pub start: usize,
    pub len: usize,
}

impl Place {
    // The part, or 2 where the place does not lie inside.
    pub fn show(self, s: &[u8]) -> Result<&[u8], Cause>
        ensures part { shown_part result ≡ shown s.now self }
        ensures block { IfOk result (λ part. part.ref_ptr.0 ≡ s.entry.ref_ptr.0) }
        ensures place { IfOk result (λ part. part.ref_ptr.1 ≡ s.entry.ref_ptr.1 + self.start) }
    {
        if s.len() < self.start {
            return Err(Cause::PastEnd);
        }
        if s.len() - self.start < self.len {
            return Err(Cause::PastEnd);
        }
        Ok(&s[self.start..self.start + self.len])
    }
}
