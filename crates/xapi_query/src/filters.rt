// Which statements were stored within the times of a query. None of these takes memory.
ghost use Rattle.std.specs.Prelude.{◌≡◌, not, true, int_lt};
ghost use Rattle.std.specs.Option.{option_map_or};
ghost use Rattle.xapi_query.specs.Filters.{in_time, stored_instant};

use crate::Query;
use lrs_time::Instant;
use xapi_statement::HeldStatement;

/// Whether the statement was stored within the times that are given.
pub fn in_time(query: &Query, statement: &HeldStatement) -> bool
    ensures { result ≡ in_time query.now statement.now }
{
    let stored = statement.stored().instant();
    is_later(query, stored) && is_not_later(query, stored)
}

// Whether the instant is later than the first one that is given.
fn is_later(query: &Query, stored: Instant) -> bool
    ensures { result ≡ option_map_or (λ first. int_lt first.value stored) query.now.since true }
{
    match &query.since {
        Some(first) => first.value.nanoseconds() < stored.nanoseconds(),
        None => true,
    }
}

// Whether the instant isn't later than the last one that is given.
fn is_not_later(query: &Query, stored: Instant) -> bool
    ensures { result ≡ option_map_or (λ last. not (int_lt last.value stored)) query.now.until true }
{
    match &query.until {
        Some(last) => stored.nanoseconds() <= last.value.nanoseconds(),
        None => true,
    }
}
