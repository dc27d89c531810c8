// The ids under which statements go that come together.
ghost use Rattle.std.specs.Prelude.{◌≡◌, ◌++◌, [], IfOk, OnOk};
ghost use Rattle.lrs_json.specs.View.{view};
ghost use Rattle.xapi_postings.specs.XapiStatementStatement.{own_id};
ghost use Rattle.lrs_ids.specs.Ids.{are_distinct};
ghost use Rattle.lrs_ids.specs.IdSupply.{GiveSame, left_of};
ghost use Rattle.xapi_index.specs.Batches.{given_ids, id_for, with_ids, ids_under, supply_after, supply_behind, with_given};

use lrs_ids::{IdSupply, UsedIds, are_distinct};
use lrs_json::{Memory, Tree};
use lrs_names::Id;
use std::alloc::Global;
use xapi_postings::own_id;

/// Whether no two of them give themselves one id.
pub fn have_distinct_ids(alloc: Global, statements: &[Tree]) -> Result<bool, Memory>
    ensures { IfOk result (λ distinct. distinct ≡ are_distinct (given_ids statements.now)) }
{
    let given = given_ids(alloc, statements)?;
    are_distinct(alloc, given.as_slice())
}

/// The ids that statements give themselves.
pub fn given_ids(alloc: Global, statements: &[Tree]) -> Result<Vec<Id>, Memory>
    ensures { IfOk result (λ ids. ids.items ≡ given_ids statements.now) }
{
    let mut ids = Vec::new(alloc);
    for statement in statements {
        push_own(&mut ids, statement)?;
    }
    Ok(ids)
}

fn push_own(ids: &mut Vec<Id>, statement: &Tree) -> Result<(), Memory>
    ensures { OnOk result (ids.new.items ≡ ids.old.items ++ with_given (own_id (view statement.now)) []) }
{
    match own_id(statement) {
        Some(id) => Ok(ids.push(id)?),
        None => Ok(()),
    }
}

/// The id under which each goes: its own, or the next of a supply, of which the rest is left.
pub fn take_ids<U: UsedIds>(
    alloc: Global,
    used: &U,
    supply: &mut IdSupply,
    statements: &[Tree],
) -> Result<Vec<Id>, Memory>
    ensures ids { IfOk result (λ ids.
        ids.items ≡ ids_under (with_ids (left_of (U.used used.now) supply.old) statements.now)) }
    ensures left { OnOk result (GiveSame (left_of (U.used used.now) supply.new)
        (supply_after (left_of (U.used used.now) supply.old) statements.now)) }
{
    let mut ids = Vec::with_capacity(alloc, statements.len())?;
    for statement in statements {
        ids.push(next_id(used, supply, statement)?)?;
    }
    Ok(ids)
}

// The id of the next one.
fn next_id<U: UsedIds>(used: &U, supply: &mut IdSupply, statement: &Tree) -> Result<Id, Memory>
    ensures id { IfOk result (λ id.
        id ≡ id_for (left_of (U.used used.now) supply.old 0) (own_id (view statement.now))) }
    ensures left { OnOk result (GiveSame (left_of (U.used used.now) supply.new)
        (supply_behind (left_of (U.used used.now) supply.old) (own_id (view statement.now)))) }
{
    match own_id(statement) {
        Some(own) => Ok(own),
        None => supply.make(used),
    }
}
