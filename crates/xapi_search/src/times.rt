// Between which positions the statements are that were stored within the times that a query gives.
ghost use Rattle.std.specs.Prelude.{◌≡◌, ◌<◌, ◌≤◌, ℕ, true, false, int_lt, length, slice_get, Some};
ghost use Rattle.xapi_index.specs.XapiQueryFilters.{in_time, stored_instant};
ghost use Rattle.xapi_search.specs.Candidates.{Bounds};
ghost use Rattle.xapi_index.specs.XapiStatementStored.{StoredStatement as SpecStatement};

use lrs_time::Instant;
use xapi_index::{Index, Query};

/// The first of these positions among the first n, and the end of them. They are found by halving; where moments fell,
/// they are 0 and n.
pub fn bounds(index: &Index, query: &Query, n: usize) -> (usize, usize)
    requires { n ≤ length index.now.held }
    ensures times { Bounds query.now n index.now.held result.0 result.1 }
    ensures within { result.1 ≤ n }
{
    let first = since_bound(index, query, n);
    let end = until_bound(index, query, n);
    (first, end)
}

fn since_bound(index: &Index, query: &Query, n: usize) -> usize
    requires { n ≤ length index.now.held }
    ensures { (k : ℕ) → (s : SpecStatement) → k < result → slice_get index.now.held k ≡ Some s
        → in_time query.now s ≡ false }
{
    match &query.since {
        Some(since) => first_after(index, n, since.value),
        None => 0,
    }
}

fn until_bound(index: &Index, query: &Query, n: usize) -> usize
    requires { n ≤ length index.now.held }
    ensures late { (k : ℕ) → (s : SpecStatement) → k < n → result ≤ k → slice_get index.now.held k ≡ Some s
        → in_time query.now s ≡ false }
    ensures within { result ≤ n }
{
    match &query.until {
        Some(until) => end_behind(index, n, until.value),
        None => n,
    }
}

// None before it was stored later than the instant.
fn first_after(index: &Index, n: usize, instant: Instant) -> usize
    requires { n ≤ length index.now.held }
    ensures { (k : ℕ) → (s : SpecStatement) → k < result → slice_get index.now.held k ≡ Some s
        → int_lt instant (stored_instant s) ≡ false }
{
    match index.later_than(n, instant) {
        Some(first) => first,
        None => 0,
    }
}

// Each from it on was stored later than the instant.
fn end_behind(index: &Index, n: usize, instant: Instant) -> usize
    requires { n ≤ length index.now.held }
    ensures late { (k : ℕ) → (s : SpecStatement) → k < n → result ≤ k → slice_get index.now.held k ≡ Some s
        → int_lt instant (stored_instant s) ≡ true }
    ensures within { result ≤ n }
{
    match index.later_than(n, instant) {
        Some(end) => end,
        None => n,
    }
}
