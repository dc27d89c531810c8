ghost use Rattle.std.specs.Prelude.{◌≡◌, [], IfOk};
ghost use Rattle.lrs_json.specs.Names.{are_new};
ghost use Rattle.lrs_json_written.specs.Fitting.{names_in};

use lrs_json::{Member, Memory};
use lrs_json_reader::{FEW_MEMBERS, is_named};
use std::alloc::Global;
use std::collections::BTreeSet;

/// Whether no name comes twice.
pub(crate) fn have_distinct_names(alloc: Global, members: &[Member]) -> Result<bool, Memory>
    ensures { IfOk result (λ distinct. distinct ≡ are_new [] (names_in members.now)) }
{
    if members.len() <= FEW_MEMBERS {
        Ok(few_are_distinct(members))
    } else {
        many_are_distinct(alloc, members)
    }
}

fn few_are_distinct(members: &[Member]) -> bool
    ensures { result ≡ are_new [] (names_in members.now) }
{
    for (i, member) in members.iter().enumerate() {
        if is_named(&members[..i], member.name.as_str()) {
            return false;
        }
    }
    true
}

fn many_are_distinct(alloc: Global, members: &[Member]) -> Result<bool, Memory>
    ensures { IfOk result (λ distinct. distinct ≡ are_new [] (names_in members.now)) }
{
    let mut names = BTreeSet::new(alloc);
    for member in members {
        if !names.insert(member.name.as_str())? {
            return Ok(false);
        }
    }
    Ok(true)
}
