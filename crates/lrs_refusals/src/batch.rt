// The ids under which statements go that come together.
ghost use Rattle.std.specs.Prelude.{◌≡◌, ◌+◌, ◌<◌, [], length, IfOk};
ghost use Rattle.lrs_made.specs.LrsHistoryOccasions.{supply_in};
ghost use Rattle.lrs_ids.specs.Ids.{IsCounted};
ghost use Rattle.lrs_ids.specs.IdSupply.{GiveSame, left_of};
ghost use Rattle.lrs_names.specs.declared.id.TheConstants.{WORDS};
ghost use Rattle.lrs_made.specs.LrsPartsParts.{state_of};
ghost use Rattle.lrs_made.specs.LrsStateState.{used_in};
ghost use Rattle.lrs_record.specs.declared.entry.Write.TheVariants as write;
ghost use Rattle.lrs_refusals.specs.Known.{AreTold, IsBatch};
ghost use Rattle.lrs_refusals.specs.Naming.{with_these_ids};

use crate::Batch;
use lrs_ids::{IdSupply, UsedIds};
use lrs_json::{Items, Memory, Tree};
use lrs_made::Parts;
use lrs_names::Draw;
use std::alloc::Global;
use xapi_index::{given_ids, take_ids};

/// Statements that come together, under the ids under which they go. Of none it is looked up whether one is held.
pub fn batch_of(
    alloc: Global,
    parts: &Parts,
    draw: &Draw,
    statements: &[Tree],
) -> Result<Batch, Memory>
    ensures batch { IfOk result (IsBatch (state_of parts.now) draw.now statements.now) }
    ensures none { IfOk result (λ b. b.held ≡ []) }
    ensures told { IfOk result (λ b. AreTold (state_of parts.now) (with_these_ids b.ids statements.now)) }
{
    let _fewer = used_with(parts, statements);
    let mut supply = supply_of_batch(alloc, parts, draw, statements)?;
    let names = take_ids(alloc, parts, &mut supply, statements)?;
    let room = Vec::with_capacity(alloc, statements.len())?;
    let ids = Items::from_vec(names);
    let held = Items::from_vec(room);
    Ok(Batch { ids, held, supply })
}

// How many ids are used, and as many more as there are statements. Ids are made of more words than that, so a made one
// is that of no held statement.
fn used_with(parts: &Parts, statements: &[Tree]) -> u128
    ensures count { result ≡ (used_in (state_of parts.now)).count + length statements.now }
    ensures fewer { result < WORDS }
    ensures counted { IsCounted (used_in (state_of parts.now)) }
{
    parts.count() + statements.len() as u128
}

// The ids that can be made for them.
fn supply_of_batch(
    alloc: Global,
    parts: &Parts,
    draw: &Draw,
    statements: &[Tree],
) -> Result<IdSupply, Memory>
    ensures { IfOk result (λ supply. GiveSame (left_of (used_in (state_of parts.now)) supply)
        (supply_in (state_of parts.now) (write.Post statements.now) draw.now)) }
{
    let given = given_ids(alloc, statements)?;
    IdSupply::new(alloc, parts, given.as_slice(), draw.name)
}
