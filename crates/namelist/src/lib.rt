// Name-lists (RFC 4251 section 5) as src/helpers.rs of russh reads them: judged whole. Their names are then walked by
// `Cursor::name` over the part that was judged.
#![tactic(auto)]

ghost use Rattle.std.specs.Prelude.{◌≡◌, ◌+◌, ◌≤◌, length};
ghost use Rattle.answer.specs.Answer.{answered};
ghost use Rattle.text.specs.Same.{highest};
ghost use Rattle.commas.specs.Cut.{cut};
ghost use Rattle.wire.specs.Fields.{here};
ghost use Rattle.wire.specs.Shown.{part};
ghost use Rattle.wire.specs.Answers.{got_text};
ghost use Rattle.namelist.specs.Judged.{standing, judged, judged_list, name_list};

use answer::{Cause, Refusal};
use wire::{Cursor, Place};

// Of src/helpers.rs. The count is tested before a name is added.
const MAX_NAME_LIST_BYTES: usize = 16384;

const MAX_NAME_LIST_ENTRIES: usize = 1024;

// A name that may stand in a list. `high` is the list's highest byte: where that is ASCII, no name is looked at again.
#[tactic(auto, using(crate::proofs::JudgeLaws::stands_laws))]
fn stands(list: &[u8], p: Place, high: u8) -> bool
    requires { (high ≡ highest 0 list.now) × (p.start + p.len ≤ length list.now) }
    ensures { result ≡ standing (part p list.now) }
{
    if p.len == 0 {
        return false;
    }
    high < 128 || text::highest(&list[p.start..p.start + p.len]) < 128
}

#[tactic(auto, using(crate::proofs::JudgeLaws::judge_laws))]
fn judge_names(list: &[u8], high: u8) -> Result<(), Cause>
    requires { high ≡ highest 0 list.now }
    ensures { answered result ≡ judged 0 (cut list.now) }
{
    let mut c = Cursor { at: 0 };
    let mut n: usize = 0;
    // Kept: walked by the cursor, whose `name` hands itself back (document 01, "Forms").
    while let Some((p, next)) = c.name(list) {
        if !stands(list, p, high) {
            return Err(Cause::NotUtf8);
        }
        if MAX_NAME_LIST_ENTRIES < n {
            return Err(Cause::PastEnd);
        }
        n += 1;
        c = next;
    }
    Ok(())
}

// The rules of a list's own bytes, in one walk over its names.
#[tactic(auto, using(crate::proofs::JudgeLaws::list_laws))]
fn judge(list: &[u8]) -> Result<(), Cause>
    ensures { answered result ≡ judged_list list.now }
{
    let high = text::highest(list);
    // Where all is ASCII, all is UTF-8.
    if high < 128 || text::utf8(list) {
        return judge_names(list, high);
    }
    Err(Cause::NotUtf8)
}

// The list is refused where it starts, whichever of its names offends.
#[tactic(auto, using(crate::proofs::JudgeLaws::list_laws))]
pub fn name_list(c: Cursor, s: &[u8]) -> Result<(Place, Cursor), Refusal>
    ensures { got_text s.now result ≡ name_list (here s.now c.at) }
{
    let (p, next) = c.run(s)?;
    if MAX_NAME_LIST_BYTES < p.len {
        return Err(Cause::PastEnd.at(c.at));
    }
    // Kept: a match, since of `map_err` with a closure the proof did not close.
    match judge(&s[p.start..next.at]) {
        Ok(()) => Ok((p, next)),
        Err(cause) => Err(cause.at(c.at)),
    }
}
