// What a choice comes to: a shared name is needed, it has to protect, or its lack is the MAC `none`.
//
// Copyright 2016 Pierre-Étienne Meunier, licensed under the Apache License, Version 2.0 (NOTICE); changed: rewritten for
// lent slices and tables of numbers.
ghost use Rattle.std.specs.Prelude.{◌≡◌};
ghost use Rattle.answer.specs.Refusal.{told};
ghost use Rattle.choice.specs.Rows.{chose};
ghost use Rattle.picking.specs.Picking.{ruled, ruling, mac_rule};

use crate::Rule;
use answer::Refusal;
use names::{CipherId, FIRST_MAC};

// The MAC `none` is the first of its kind.
const NONE_ROW: u8 = FIRST_MAC;

// What a cipher asks of its MAC lists, by the needs-MAC column.
pub fn mac_rule(cipher: CipherId) -> Rule
    ensures { result ≡ mac_rule cipher.0 }
{
    if cipher.needs_mac().unwrap_or(false) {
        Rule::Protected
    } else {
        Rule::Optional
    }
}

// `no` is the refusal where the rule asks for a shared name and there is none.
#[tactic(auto, unfolding(crate::specs::Picking::ruled))]
pub fn rule_on(rule: Rule, no: Refusal, chosen: Option<u8>) -> Result<u8, Refusal>
    ensures { ruling result ≡ ruled rule (told no) (chose chosen) }
{
    match (rule, chosen) {
        (Rule::Optional, None) => Ok(NONE_ROW),
        (_, None) => Err(no),
        (Rule::Protected, Some(NONE_ROW)) => Err(no),
        (_, Some(row)) => Ok(row),
    }
}
