// The positions that are seen and pass each filter. They are found by leaps: each list leads past all that it hasn't.
ghost use Rattle.std.specs.Prelude.{◌≡◌, ◌≤◌, ◌++◌, ◌∷◌, [], ℕ, true, false, IfOk, IfSome, OnOk};
ghost use Rattle.std.specs.Prelude.{if◌then◌else◌};
ghost use Rattle.xapi_index.specs.XapiPostingsNearest.{IsLeastFrom, is_before};
ghost use Rattle.xapi_search.specs.Narrowing.{EachAscends, is_in_each};
ghost use Rattle.xapi_search.specs.Sought.{AreAscending, AreDirect, SeenAscends, is_direct_at, is_seen};

use crate::sought::{Seen, Sought};
use lrs_json::Memory;
use std::alloc::Global;
use xapi_index::first_from;

/// The positions among the first n of the statements that are seen and pass the filters by themselves, in order.
pub fn direct_below(alloc: Global, sought: &Sought<'_>, n: usize) -> Result<Vec<u32>, Memory>
    requires { AreAscending sought.now }
    ensures { IfOk result (λ found. AreDirect sought.now n found.items) }
{
    let mut found = Vec::new(alloc);
    let mut from = 0;
    'leaps: while let Some(next) = leap(sought, from) {
        if next >= n {
            return Ok(found);
        }
        note(sought, next, &mut found)?;
        from = next + 1;
    }
    Ok(found)
}

/// Whether the statement at a position is seen and passes the filters by itself.
pub fn is_direct_at(sought: &Sought<'_>, position: usize) -> bool
    requires { AreAscending sought.now }
    ensures { result ≡ is_direct_at sought.now position }
{
    sought.sees(position) && sought.passes(position)
}

// Puts a position at the end, if it is one of them.
fn note(sought: &Sought<'_>, position: usize, found: &mut Vec<u32>) -> Result<(), Memory>
    requires { AreAscending sought.now }
    ensures { OnOk result (found.new.items
        ≡ (if is_direct_at sought.now position then found.old.items ++ position ∷ [] else found.old.items)) }
{
    if is_direct_at(sought, position) {
        put(found, position)
    } else {
        Ok(())
    }
}

// Puts a position at the end. None of an index has more than 32 bits.
fn put(found: &mut Vec<u32>, position: usize) -> Result<(), Memory>
    ensures { OnOk result (found.new.items ≡ found.old.items ++ position ∷ []) }
{
    match u32::try_from(position) {
        Ok(short) => {
            found.push(short)?;
            Ok(())
        }
        Err(_) => Err(Memory),
    }
}

// The next position at which one may stand that is seen and passes.
fn leap(sought: &Sought<'_>, from: usize) -> Option<usize>
    requires { AreAscending sought.now }
    ensures ahead { IfSome result (λ next. from ≤ next) }
    ensures skips { (k : ℕ) → from ≤ k → is_before k result ≡ true → is_direct_at sought.now k ≡ false }
{
    match leap_seen(sought.seen, from) {
        Some(seen) => leap_each(sought.filters.as_slice(), seen),
        None => None,
    }
}

// The next one that is seen.
fn leap_seen(seen: Seen<'_>, from: usize) -> Option<usize>
    requires { SeenAscends seen }
    ensures { IsLeastFrom (is_seen seen.entry) from result }
{
    match seen {
        Seen::Nothing => None,
        Seen::All => Some(from),
        Seen::These(list) => first_from(list, from),
    }
}

// From list to list, each time to the next position of it.
fn leap_each(lists: &[&[u32]], from: usize) -> Option<usize>
    requires { EachAscends lists.now }
    ensures ahead { IfSome result (λ next. from ≤ next) }
    ensures skips { (k : ℕ) → from ≤ k → is_before k result ≡ true → is_in_each lists.now k ≡ false }
{
    let mut position = from;
    for &list in lists {
        match first_from(list, position) {
            Some(next) => position = next,
            None => return None,
        }
    }
    Some(position)
}
