// Numbers of launches, which are counted from 0.
ghost use Rattle.std.specs.Prelude.{◌≡◌, ◌∷◌, ◌++◌, [], length, IfOk, OnOk};
ghost use Rattle.lrs_made.specs.LrsHistoryEndings.{sessions_at};
ghost use Rattle.lrs_made.specs.LrsPartsParts.{state_of};

use lrs_json::Memory;
use lrs_made::Parts;
use lrs_names::Id;
use std::alloc::Global;

/// How many launches there are, which is also the number of the next. There are never more than 32 bits count.
pub fn launch_count(parts: &Parts) -> Result<u32, Memory>
    ensures { IfOk result (λ count. count ≡ length (state_of parts.now).launches) }
{
    match u32::try_from(parts.learning.launches.len()) {
        Ok(count) => Ok(count),
        Err(_) => Err(Memory),
    }
}

/// The ids of the sessions of the launches of these numbers.
pub fn sessions_at(alloc: Global, parts: &Parts, numbers: &[u32]) -> Result<Vec<Id>, Memory>
    ensures { IfOk result (λ ids. ids.items ≡ sessions_at (state_of parts.now) numbers.now) }
{
    let mut ids = Vec::with_capacity(alloc, numbers.len())?;
    for number in numbers {
        push_session(parts, *number, &mut ids)?;
    }
    Ok(ids)
}

fn push_session(parts: &Parts, number: u32, ids: &mut Vec<Id>) -> Result<(), Memory>
    ensures { OnOk result (ids.new.items ≡ ids.old.items ++ sessions_at (state_of parts.now) (number ∷ [])) }
{
    match parts.learning.launches.get(number) {
        Some(launch) => Ok(ids.push(launch.session)?),
        None => Ok(()),
    }
}
