// The rows of an own list.
ghost use Rattle.std.specs.Prelude.{◌≡◌, ◌≤◌, [], length};
ghost use Rattle.filters.specs.Made.{pushed};

use super::MOST_OWN;
use std::fmt;
use std::marker::Model;
use std::ops::DerefSlice;

// Rows of the name table, or numbers of a kind, in the value itself: nothing is allocated. They stand in front, and 0 in the
// places after them, so that the rows alone say what lies there.
// Kept: an array with its length beside it, since the library's `ArrayVec` is not `Copy`, as this is and `Own` with it.
#[derive(Clone, Copy, PartialEq, Eq)]
pub struct RowList {
    rows: [u8; MOST_OWN],
    len: usize,
}

impl Model for RowList {
    ghost use Rattle.filters.specs.Items.{Items};

    ghost Value = { Items };

    ghost use Rattle.std.specs.Prelude.{◌++◌, ◌-◌, take, replicate};
    ghost use Rattle.std.proofs.Common.{ap, ◌∙◌, take-append-drop, length-take-le};
    ghost use Rattle.filters.specs.Rows.{most_own, seen, Tidy, stored};

    ghost view = { seen };

    ghost invariant = { Tidy };

    ghost inverse = { stored };

    ghost inverse_ok = { λ l h i. record {
      rows = (ap (λ n. take l.len l.rows ++ replicate (most_own - n) 0) (length-take-le l.len l.rows h.0)
          ∙ ap (λ xs. take l.len l.rows ++ xs) h.2 ∙ take-append-drop l.len l.rows) i;
      len = length-take-le l.len l.rows h.0 i;
    } };
}

impl RowList {
    pub fn new() -> RowList
        ensures { result.items ≡ [] }
    {
        RowList {
            rows: [0; MOST_OWN],
            len: 0,
        }
    }
}

impl DerefSlice for RowList {
    type Elem = u8;

    ghost deref_gives = { λ l xs. (xs ≡ l.items) × (length xs ≤ 32) };

    fn deref(&self) -> &[u8] {
        &self.rows[..self.len]
    }
}

// As a slice is told.
impl fmt::Debug for RowList {
    fn fmt<W: fmt::Write>(&self, f: &mut fmt::Formatter<W>) -> fmt::Result {
        f.debug_list().entries(&self.rows[..self.len]).finish()
    }
}

// A full list stays as it is. None that is made of judged lists gets that far: the laws of proofs/RoomLaws.antt.
#[tactic(auto, unfolding(crate::specs::Made::pushed))]
pub fn push(list: &mut RowList, number: u8)
    ensures { list.new ≡ pushed list.old number }
{
    let len = list.len;
    if len < MOST_OWN {
        list.rows[len] = number;
        list.len = len + 1;
    }
}
