// From which statements references lead to given ones.
ghost use Rattle.std.specs.Prelude.{◌≡◌, ◌++◌, ◌==◌, ◌&&◌, ◌≤◌, ℕ, [], nat_lt, true, length, IfOk, IfSome, OnOk};
ghost use Rattle.xapi_index.specs.XapiPostingsAscending.{IsAscending, is_in};
ghost use Rattle.xapi_search.specs.Candidates.{Reaches};
ghost use Rattle.xapi_search.specs.Walks.{IsWalked, Notes};

use lrs_json::Memory;
use std::alloc::Global;
use std::collections::BTreeSet;
use xapi_index::Index;

/// The positions among the first n from which references lead to one of these, and these, in order. `None` would say
/// that more than n positions had been found.
pub fn reaching(
    alloc: Global,
    index: &Index,
    n: usize,
    ends: &[u32],
) -> Result<Option<Vec<u32>>, Memory>
    requires { n ≤ length index.now.held }
    ensures { IfOk result (λ found. IfSome found (λ ks. Reaches index.now.held n ends.now ks.items)) }
{
    let mut found = BTreeSet::new(alloc);
    let mut left = Vec::new(alloc);
    note_each(n, ends, &mut found, &mut left)?;
    let ended = walk(index, n, &mut found, &mut left)?;
    if !ended {
        return Ok(None);
    }
    let list = in_order(alloc, &found)?;
    Ok(Some(list))
}

// Walks backwards from each of those that are left, and from what is found, once from each. Whether it came to an end.
fn walk(
    index: &Index,
    n: usize,
    found: &mut BTreeSet<u32>,
    left: &mut Vec<u32>,
) -> Result<bool, Memory>
    requires within { n ≤ length index.now.held }
    requires walked { IsWalked index.now.held n found.old.keys left.old.items }
    ensures kept { OnOk result ((k : ℕ) → is_in found.old.keys k ≡ true → is_in found.new.keys k ≡ true) }
    ensures walked { IfOk result (λ ended. ended ≡ true → IsWalked index.now.held n found.new.keys []) }
{
    for _step in 0..n {
        match left.pop() {
            Some(position) => note_each(n, index.referring_to(position as usize), found, left)?,
            None => return Ok(true),
        }
    }
    Ok(left.is_empty())
}

// Notes those of these positions that come before the n-th.
fn note_each(
    n: usize,
    positions: &[u32],
    found: &mut BTreeSet<u32>,
    left: &mut Vec<u32>,
) -> Result<(), Memory>
    ensures { OnOk result (Notes (λ k. nat_lt k n && is_in positions.now k) found.old.keys found.new.keys
        left.old.items left.new.items) }
{
    for position in positions {
        let at = *position as usize;
        if at >= n {
            continue;
        }
        note(*position, found, left)?;
    }
    Ok(())
}

// Puts a position among those that were found and, if it is new, among those that are left.
fn note(position: u32, found: &mut BTreeSet<u32>, left: &mut Vec<u32>) -> Result<(), Memory>
    ensures { OnOk result (Notes (λ k. position == k) found.old.keys found.new.keys left.old.items left.new.items) }
{
    let added = found.insert(position)?;
    if !added {
        return Ok(());
    }
    left.push(position)?;
    Ok(())
}

fn in_order(alloc: Global, found: &BTreeSet<u32>) -> Result<Vec<u32>, Memory>
    ensures items { IfOk result (λ list. list.items ≡ found.now.keys) }
    ensures ascending { IfOk result (λ list. IsAscending list.items) }
{
    let mut list = Vec::with_capacity(alloc, found.len())?;
    put_each(found, &mut list)?;
    Ok(list)
}

fn put_each(found: &BTreeSet<u32>, list: &mut Vec<u32>) -> Result<(), Memory>
    ensures { OnOk result (list.new.items ≡ list.old.items ++ found.now.keys) }
{
    for position in found {
        list.push(*position)?;
    }
    Ok(())
}
