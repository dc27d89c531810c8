// The statements that a query asks for, in their order, and their pages.
ghost use Rattle.std.specs.Prelude.{◌≡◌, ◌<◌, ◌≤◌, ◌+◌, ℕ, false, nat_le, IfNone, IfOk, IfSome, OnOk, Some, [], length};
ghost use Rattle.std.specs.Prelude.{slice_get, take};
ghost use Rattle.std.specs.Option.{option_map_or};
ghost use Rattle.xapi_search.specs.XapiQueryFilters.{in_time};
ghost use Rattle.xapi_search.specs.Candidates.{ListsAscend};
ghost use Rattle.xapi_search.specs.Sought.{AreAscending};
ghost use Rattle.xapi_pages.specs.Chains.{AreTrue, chain_passes, unknown_below};
ghost use Rattle.xapi_pages.specs.Listings.{is_behind, last_of, positions_of};
ghost use Rattle.xapi_pages.specs.Searching.{Covers, IsPage, SkipsNone, TellsListed, may_be_listed};

use crate::chains::{Marks, chain_passes};
use lrs_json::Memory;
use std::alloc::Global;
use xapi_search::{Candidates, Index, Query, Sought, in_time};

/// The positions of a page, and the last one of them if something follows it.
#[derive(Drop)]
pub(crate) struct Page {
    pub(crate) positions: Vec<usize>,
    pub(crate) link: Option<usize>,
}

/// The page after a position, in the list as of the first so many statements, looked for among the candidates in their
/// order. None if more than `most_missed` of them weren't listed, and there are further ones, or if more steps were
/// walked along references.
pub(crate) fn find_page(
    alloc: Global,
    index: &Index,
    query: &Query,
    sought: &Sought<'_>,
    candidates: &Candidates<'_>,
    asof: usize,
    after: Option<usize>,
    most_missed: usize,
) -> Result<Option<Page>, Memory>
    requires asof { asof ≤ length index.now.held }
    requires ascending { AreAscending sought.now }
    requires lists { ListsAscend candidates.now.lists }
    requires end { candidates.now.end ≤ asof }
    requires covers { Covers query.now sought.now index.now.held asof candidates.now }
    ensures page { IfOk result (λ found.
        IfSome found (λ page. IsPage query.now sought.now index.now.held asof after page)) }
    ensures enough { IfOk result (λ found. IfNone found (most_missed < asof)) }
{
    let most = query.page as usize;
    let mut positions = Vec::new(alloc);
    let mut marks = Marks::new(alloc);
    let mut missed = 0;
    let mut walked: usize = 0;
    let mut from = first_behind(query.ascending, asof, after);
    'looks: while let Some(i) = next_index(candidates, query.ascending, asof, from) {
        if missed > most_missed {
            return Ok(None);
        }
        from = i + 1;
        let position = position_at(query.ascending, asof, i);
        let listed = is_listed_at(
            alloc,
            index,
            query,
            sought,
            asof,
            &mut marks,
            position,
            most_missed,
            &mut walked,
        )?;
        if walked > most_missed {
            return Ok(None);
        }
        if !listed {
            missed += 1;
            continue;
        }
        if positions.len() >= most {
            let link = last_of(positions.as_slice());
            return Ok(Some(Page { positions, link }));
        }
        positions.push(position)?;
    }
    Ok(Some(Page {
        positions,
        link: None,
    }))
}

// The i-th position of so many statements. It is the index of the i-th position, too.
fn position_at(ascending: bool, n: usize, i: usize) -> usize
    requires { i < n }
    ensures at { slice_get (positions_of ascending n) i ≡ Some result }
    ensures within { result < n }
{
    if ascending { i } else { n - 1 - i }
}

fn last_of(positions: &[usize]) -> Option<usize>
    ensures { result ≡ last_of positions.now }
{
    positions.last().copied()
}

// The first index from which on the positions come after that one.
fn first_behind(ascending: bool, asof: usize, after: Option<usize>) -> usize
    ensures { (i k : ℕ) → slice_get (positions_of ascending asof) i ≡ Some k →
        is_behind ascending after k ≡ nat_le result i }
{
    match after {
        Some(after) => {
            if ascending {
                after.saturating_add(1)
            } else {
                asof.saturating_sub(after)
            }
        }
        None => 0,
    }
}

// The next index from one on at whose position a candidate stands.
fn next_index(
    candidates: &Candidates<'_>,
    ascending: bool,
    asof: usize,
    from: usize,
) -> Option<usize>
    requires lists { ListsAscend candidates.now.lists }
    requires end { candidates.now.end ≤ asof }
    ensures ahead { IfSome result (λ i. from ≤ i) }
    ensures within { IfSome result (λ i. i < asof) }
    ensures skips { SkipsNone candidates.now ascending asof from result }
{
    if ascending {
        candidates.first_from(from)
    } else {
        match candidates.last_before(asof.saturating_sub(from)) {
            Some(position) => Some(position_at(false, asof, position)),
            None => None,
        }
    }
}

// What costs least is asked first. The answer holds while no more than `most` steps were walked.
fn is_listed_at(
    alloc: Global,
    index: &Index,
    query: &Query,
    sought: &Sought<'_>,
    asof: usize,
    marks: &mut Marks,
    position: usize,
    most: usize,
    walked: &mut usize,
) -> Result<bool, Memory>
    requires asof { asof ≤ length index.now.held }
    requires within { position < asof }
    requires ascending { AreAscending sought.now }
    requires marks { AreTrue (chain_passes sought.now (take asof index.now.held)) marks.old [] }
    requires counted { walked.old + unknown_below asof marks.old ≤ asof }
    ensures listed { IfOk result (λ listed. walked.new ≤ most
        → TellsListed query.now sought.now index.now.held asof position listed) }
    ensures marks { OnOk result (walked.new ≤ most
        → AreTrue (chain_passes sought.now (take asof index.now.held)) marks.new []) }
    ensures counted { OnOk result (walked.new + unknown_below asof marks.new ≤ asof) }
{
    if may_be_listed(index, query, sought, asof, position) {
        chain_passes(alloc, index, sought, asof, marks, position, most, walked)
    } else {
        Ok(false)
    }
}

// Whether the statement at a position is listed if one of its chain passes.
fn may_be_listed(
    index: &Index,
    query: &Query,
    sought: &Sought<'_>,
    asof: usize,
    position: usize,
) -> bool
    requires { AreAscending sought.now }
    ensures { result ≡ may_be_listed query.now sought.now index.now.held asof position }
{
    sought.sees(position)
        && is_in_time(index, query, position)
        && !index.is_voided_at(asof, position)
}

// Whether the statement at a position was stored within the times.
fn is_in_time(index: &Index, query: &Query, position: usize) -> bool
    ensures { result ≡ option_map_or (in_time query.now) (slice_get index.now.held position) false }
{
    match index.get(position) {
        Some(statement) => in_time(query, statement),
        None => false,
    }
}
