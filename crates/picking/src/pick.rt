// A list of the payload, and the row that the rule takes from it.
//
// Copyright 2016 Pierre-Étienne Meunier, licensed under the Apache License, Version 2.0 (NOTICE); changed: rewritten for
// lent slices and tables of numbers.
ghost use Rattle.std.specs.Prelude.{◌≡◌, ◌&&◌};
ghost use Rattle.answer.specs.Refusal.{number as number_of};
ghost use Rattle.wire.specs.Fields.{here};
ghost use Rattle.commas.specs.Cut.{cut};
ghost use Rattle.choice.specs.Rows.{spells_by, first_both};
ghost use Rattle.picking.specs.Picking.{guessed, picked, stands_in, picked_of};

use crate::rules::rule_on;
use crate::{Picked, Rule};
use answer::{Cause, Refusal};
use choice::{Side, both_first, choose};
use namelist::name_list;
use names::Columns;
use wire::Cursor;

// A guess is about kex and key alone: no other list is looked at for it.
fn first_of(names: &Columns, no: Cause, own: &[u8], list: &[u8]) -> bool
    ensures { result ≡ (guessed (number_of no) && first_both (spells_by names.now) own.now (cut list.now)) }
{
    no <= Cause::NoKey && both_first(names, own, list)
}

// A list without a shared name, where the rule asks for one, is refused by `no` where it starts.
pub fn pick_name(
    names: &Columns,
    side: Side,
    rule: Rule,
    no: Cause,
    own: &[u8],
    p: &[u8],
    c: Cursor,
) -> Result<Picked, Refusal>
    ensures { picked_of p.now result ≡ picked (spells_by names.now) side rule (number_of no) own.now (here p.now c.at) }
{
    let (place, next) = name_list(c, p)?;
    let list = &p[place.start..next.at];
    let row = rule_on(rule, no.at(c.at), choose(names, side, own, list))?;
    let first = first_of(names, no, own, list);
    Ok(Picked { row, first, next })
}

// Whether a row's name stands in the list at the cursor: how a peer offers strict key exchange.
pub fn stands_in(names: &Columns, row: u8, p: &[u8], c: Cursor) -> bool
    ensures { result ≡ stands_in (spells_by names.now) row (here p.now c.at) }
{
    let Ok((place, next)) = c.run(p) else {
        return false;
    };
    let own = [row];
    choose(names, Side::Client, &own, &p[place.start..next.at]).is_some()
}
