// The ids that an entry makes, if its write brings none itself.
ghost use Rattle.std.specs.Prelude.{◌≡◌, IfOk};
ghost use Rattle.lrs_ids.specs.Ids.{rest_of};
ghost use Rattle.lrs_ids.specs.IdSupply.{GiveSame, left_of};
ghost use Rattle.lrs_learning.specs.Occasions.{supply_at};
ghost use Rattle.lrs_sessions.specs.LrsPartsParts.{state_of};
ghost use Rattle.lrs_sessions.specs.LrsStateState.{used_in};

use lrs_ids::IdSupply;
use lrs_json::Memory;
use lrs_names::{Draw, Id};
use lrs_parts::Parts;
use std::alloc::Global;

/// All of them.
pub(crate) fn supply_of(alloc: Global, parts: &Parts, draw: &Draw) -> Result<IdSupply, Memory>
    ensures { IfOk result (λ supply. GiveSame (left_of (used_in (state_of parts.now)) supply)
        (supply_at (state_of parts.now) draw.now)) }
{
    IdSupply::new(alloc, parts, &[], draw.name)
}

/// Two ids, and those that are left behind them.
#[derive(Drop)]
pub(crate) struct FirstTwo {
    pub first: Id,
    pub second: Id,
    pub left: IdSupply,
}

/// The first two, and those that are left.
pub(crate) fn first_two(alloc: Global, parts: &Parts, draw: &Draw) -> Result<FirstTwo, Memory>
    ensures first { IfOk result (λ ids. ids.first ≡ supply_at (state_of parts.now) draw.now 0) }
    ensures second { IfOk result (λ ids. ids.second ≡ supply_at (state_of parts.now) draw.now 1) }
    ensures left { IfOk result (λ ids. GiveSame (left_of (used_in (state_of parts.now)) ids.left)
        (rest_of (rest_of (supply_at (state_of parts.now) draw.now)))) }
{
    let mut left = supply_of(alloc, parts, draw)?;
    let first = left.make(parts)?;
    let second = left.make(parts)?;
    Ok(FirstTwo {
        first,
        second,
        left,
    })
}
