// Where a page is looked for: no further than a filter that few statements pass leads.
ghost use Rattle.std.specs.Prelude.{◌≡◌, ◌<◌, ◌≤◌, ◌⊎◌, ℕ, true, IfNone, IfOk, IfSome, length, take};
ghost use Rattle.xapi_search.specs.XapiIndexIndex.{IsPosting};
ghost use Rattle.xapi_search.specs.XapiPostingsAscending.{IsAscending, is_in};
ghost use Rattle.xapi_search.specs.Candidates.{ListsAscend, stands_in};
ghost use Rattle.xapi_search.specs.Sought.{AreAscending, SeenAscends, is_seen, passes};
ghost use Rattle.xapi_pages.specs.Listings.{page_behind};
ghost use Rattle.xapi_pages.specs.Searching.{HasDirect, HaveAll, IsPage};

use crate::listing::{Page, find_page};
use lrs_json::Memory;
use std::alloc::Global;
use xapi_search::{
    Candidates, Index, Key, Lists, Query, Seen, Sight, Sought, bounds, direct_below, reaching,
};

// So many candidates more than stand in a list, or in a part of it, may be looked at in vain, and so many steps along
// references be walked, before another way to the page is gone.
const MORE_MISSED: usize = 256;

// The part of a filter's list.
const PART_MISSED: usize = 8;

/// The page after a position, in the list as of the first so many statements.
pub(crate) fn page_of(
    alloc: Global,
    index: &Index,
    query: &Query,
    sight: &Sight,
    asof: usize,
    after: Option<usize>,
) -> Result<Page, Memory>
    requires { asof ≤ length index.now.held }
    ensures positions { IfOk result (λ page.
        page.positions.items ≡ (page_behind query.now sight.now (take asof index.now.held) after).positions) }
    ensures link { IfOk result (λ page.
        page.link ≡ (page_behind query.now sight.now (take asof index.now.held) after).link) }
{
    let sought = Sought::of(alloc, index, query, sight)?;
    page_sought(alloc, index, query, &sought, asof, after)
}

// The page by one of the lists of what is sought or, where too much is looked at in vain, by what they have in common.
fn page_sought<'a>(
    alloc: Global,
    index: &'a Index,
    query: &Query,
    sought: &Sought<'a>,
    asof: usize,
    after: Option<usize>,
) -> Result<Page, Memory>
    requires asof { asof ≤ length index.now.held }
    requires ascending { AreAscending sought.now }
    ensures { IfOk result (λ page. IsPage query.now sought.now index.now.held asof after page) }
{
    let near = page_listed(alloc, index, query, sought, asof, after)?;
    match near {
        Some(page) => Ok(page),
        None => page_meeting(alloc, index, query, sought, asof, after),
    }
}

// The page by the list of all that is seen, or by that of a filter if fewer stand in it; none if too much is looked at
// in vain.
fn page_listed<'a>(
    alloc: Global,
    index: &'a Index,
    query: &Query,
    sought: &Sought<'a>,
    asof: usize,
    after: Option<usize>,
) -> Result<Option<Page>, Memory>
    requires asof { asof ≤ length index.now.held }
    requires ascending { AreAscending sought.now }
    ensures { IfOk result (λ found.
        IfSome found (λ page. IsPage query.now sought.now index.now.held asof after page)) }
{
    match shorter_than_seen(sought) {
        Some(list) => page_filtered(alloc, index, query, sought, list, asof, after),
        None => page_seen(alloc, index, query, sought, asof, after),
    }
}

// The shortest list of a filter, if more are seen than stand in it.
fn shorter_than_seen<'a>(sought: &Sought<'a>) -> Option<&'a [u32]>
    requires { AreAscending sought.now }
    ensures has { IfSome result (λ list. (k : ℕ) → passes sought.now k ≡ true → is_in list.now k ≡ true) }
    ensures ascending { IfSome result (λ list. IsAscending list.now) }
{
    match sought.shortest() {
        Some(list) => {
            if are_more_seen(sought.seen, list.len()) {
                Some(list)
            } else {
                None
            }
        }
        None => None,
    }
}

// Whether more are seen than so many. It has no clause: it only chooses between two ways to the same page.
fn are_more_seen(seen: Seen<'_>, count: usize) -> bool {
    match seen {
        Seen::Nothing => false,
        Seen::All => true,
        Seen::These(list) => list.len() > count,
    }
}

// All that are seen.
fn lists_seen(seen: Seen<'_>) -> Lists<'_>
    requires { SeenAscends seen }
    ensures stands { (k : ℕ) → stands_in result k ≡ is_seen seen.entry k }
    ensures ascending { ListsAscend result }
{
    match seen {
        Seen::Nothing => Lists::Either(&[], &[]),
        Seen::All => Lists::Each,
        Seen::These(list) => Lists::Either(&[], list),
    }
}

// The page among all that are seen; none if too much is looked at in vain.
fn page_seen(
    alloc: Global,
    index: &Index,
    query: &Query,
    sought: &Sought<'_>,
    asof: usize,
    after: Option<usize>,
) -> Result<Option<Page>, Memory>
    requires asof { asof ≤ length index.now.held }
    requires ascending { AreAscending sought.now }
    ensures { IfOk result (λ found.
        IfSome found (λ page. IsPage query.now sought.now index.now.held asof after page)) }
{
    let lists = lists_seen(sought.seen);
    let most_missed = missed_of_seen(sought.seen, asof);
    page_within(alloc, index, query, sought, lists, asof, after, most_missed)
}

// How many may be looked at in vain among those that are seen. It has no clause: it only chooses between two ways to
// the same page. Where all are seen and they are looked at, no filter is given, and nothing is walked.
fn missed_of_seen(seen: Seen<'_>, asof: usize) -> usize {
    match seen {
        Seen::Nothing => MORE_MISSED,
        Seen::All => asof,
        Seen::These(list) => list.len().saturating_add(MORE_MISSED),
    }
}

// The page by the list of a filter; none if too much is looked at in vain. That is after a part of the list, since
// other filters may leave little of it.
fn page_filtered<'a>(
    alloc: Global,
    index: &'a Index,
    query: &Query,
    sought: &Sought<'a>,
    list: &'a [u32],
    asof: usize,
    after: Option<usize>,
) -> Result<Option<Page>, Memory>
    requires asof { asof ≤ length index.now.held }
    requires ascending { AreAscending sought.now }
    requires has { (k : ℕ) → passes sought.now k ≡ true → is_in list.now k ≡ true }
    requires list { IsAscending list.now }
    ensures { IfOk result (λ found.
        IfSome found (λ page. IsPage query.now sought.now index.now.held asof after page)) }
{
    let part = count_before(list, asof) / PART_MISSED;
    let most_missed = part.saturating_add(MORE_MISSED);
    page_near(alloc, index, query, sought, list, asof, after, most_missed)
}

// How many of the positions come before one. It has no clause: it only chooses between two ways to the same page.
fn count_before(list: &[u32], end: usize) -> usize {
    list.partition_point(|k| (*k as usize) < end)
}

// The page by the list of what is seen and passes all filters.
fn page_meeting(
    alloc: Global,
    index: &Index,
    query: &Query,
    sought: &Sought<'_>,
    asof: usize,
    after: Option<usize>,
) -> Result<Page, Memory>
    requires asof { asof ≤ length index.now.held }
    requires ascending { AreAscending sought.now }
    ensures { IfOk result (λ page. IsPage query.now sought.now index.now.held asof after page) }
{
    let direct = direct_below(alloc, sought, asof)?;
    page_direct(alloc, index, query, sought, direct.as_slice(), asof, after)
}

// The same. Where too many refer in vain, those are found first from which references lead into the list.
fn page_direct(
    alloc: Global,
    index: &Index,
    query: &Query,
    sought: &Sought<'_>,
    list: &[u32],
    asof: usize,
    after: Option<usize>,
) -> Result<Page, Memory>
    requires asof { asof ≤ length index.now.held }
    requires ascending { AreAscending sought.now }
    requires has { HasDirect sought.now asof list.now }
    requires list { IsAscending list.now }
    ensures { IfOk result (λ page. IsPage query.now sought.now index.now.held asof after page) }
{
    let most_missed = list.len().saturating_add(MORE_MISSED);
    let near = page_near(alloc, index, query, sought, list, asof, after, most_missed)?;
    match near {
        Some(page) => Ok(page),
        None => page_reaching(alloc, index, query, sought, list, asof, after),
    }
}

// The page by a list that has all that is seen and passes; none if too much is looked at in vain, or if nothing stands
// in it. If one of a chain passes, the first statement passes by itself or refers to another one.
fn page_near<'a>(
    alloc: Global,
    index: &'a Index,
    query: &Query,
    sought: &Sought<'_>,
    list: &'a [u32],
    asof: usize,
    after: Option<usize>,
    most_missed: usize,
) -> Result<Option<Page>, Memory>
    requires asof { asof ≤ length index.now.held }
    requires ascending { AreAscending sought.now }
    requires has { HasDirect sought.now asof list.now }
    requires list { IsAscending list.now }
    ensures page { IfOk result (λ found.
        IfSome found (λ page. IsPage query.now sought.now index.now.held asof after page)) }
    ensures enough { IfOk result (λ found. IfNone found ((length list.now ≡ 0) ⊎ (most_missed < asof))) }
{
    if list.is_empty() {
        return Ok(None);
    }
    let referring = all_referring(index);
    let lists = Lists::Either(list, referring);
    page_within(alloc, index, query, sought, lists, asof, after, most_missed)
}

// The positions of the statements that refer to one.
fn all_referring(index: &Index) -> &[u32]
    ensures { IsPosting index.now.held (length index.now.coming) Key.AnyReference result.now }
{
    let key = Key::AnyReference;
    let list = index.posting(&key);
    drop(key);
    list
}

// The page among those from which references lead into the list of a filter.
fn page_reaching(
    alloc: Global,
    index: &Index,
    query: &Query,
    sought: &Sought<'_>,
    list: &[u32],
    asof: usize,
    after: Option<usize>,
) -> Result<Page, Memory>
    requires asof { asof ≤ length index.now.held }
    requires ascending { AreAscending sought.now }
    requires has { HasDirect sought.now asof list.now }
    ensures { IfOk result (λ page. IsPage query.now sought.now index.now.held asof after page) }
{
    let found = reaching(alloc, index, asof, list)?;
    match &found {
        Some(reached) => {
            let lists = Lists::Either(&[], reached.as_slice());
            page_in(alloc, index, query, sought, lists, asof, after)
        }
        None => page_in(alloc, index, query, sought, Lists::Each, asof, after),
    }
}

// The page by lists that have all that may be listed.
fn page_in(
    alloc: Global,
    index: &Index,
    query: &Query,
    sought: &Sought<'_>,
    lists: Lists<'_>,
    asof: usize,
    after: Option<usize>,
) -> Result<Page, Memory>
    requires asof { asof ≤ length index.now.held }
    requires ascending { AreAscending sought.now }
    requires lists { ListsAscend lists }
    requires all { HaveAll sought.now index.now.held asof lists }
    ensures { IfOk result (λ page. IsPage query.now sought.now index.now.held asof after page) }
{
    let found = page_within(alloc, index, query, sought, lists, asof, after, asof)?;
    match found {
        Some(page) => Ok(page),
        None => unreachable!(),
    }
}

// The same; none if more than so many are looked at in vain.
fn page_within(
    alloc: Global,
    index: &Index,
    query: &Query,
    sought: &Sought<'_>,
    lists: Lists<'_>,
    asof: usize,
    after: Option<usize>,
    most_missed: usize,
) -> Result<Option<Page>, Memory>
    requires asof { asof ≤ length index.now.held }
    requires ascending { AreAscending sought.now }
    requires lists { ListsAscend lists }
    requires all { HaveAll sought.now index.now.held asof lists }
    ensures page { IfOk result (λ found.
        IfSome found (λ page. IsPage query.now sought.now index.now.held asof after page)) }
    ensures enough { IfOk result (λ found. IfNone found (most_missed < asof)) }
{
    let times = bounds(index, query, asof);
    let candidates = Candidates {
        first: times.0,
        end: times.1,
        lists,
    };
    find_page(
        alloc,
        index,
        query,
        sought,
        &candidates,
        asof,
        after,
        most_missed,
    )
}
