// What each parameter of a list asks for, if its value is one.
ghost use Rattle.std.specs.Prelude.{◌≡◌, ◌≤◌, IfOk, IsTrue, codes, length};
ghost use Rattle.lrs_names.specs.Iris.{is_iri};
ghost use Rattle.xapi_parameters.specs.Parameters.{Passes, given, has_link_number, has_link_numbers, number_under, passes};
ghost use Rattle.xapi_parameters.specs.Queries.{IsActorGiven, capped, format_named, format_under, id_under, instant_in, instant_under, is_asked, page_size};
ghost use Rattle.xapi_parameters.specs.Values.{IsActor, is_limit, is_link_number};

use crate::Pair;
use crate::parameters::given;
use crate::values::{actor, are_digits};
use lrs_agents::Ifi;
use lrs_decimal::digits_value;
use lrs_json::{Memory, Text};
use lrs_names::{Id, Iri};
use lrs_time::{Instant, read_timestamp};
use std::alloc::Global;
use xapi_query::{Format, Given, MOST_OF_PAGE};

/// The most digits of a number in a link.
const MOST_LINK_DIGITS: usize = 18;

pub fn id_under(pairs: &[Pair], name: &str) -> Option<Id>
    ensures { result ≡ id_under name.now pairs.now }
{
    Id::read(given(pairs, name)?.as_bytes())
}

/// The identifier of the agent or group that is given.
pub fn actor_under(alloc: Global, pairs: &[Pair]) -> Result<Option<Given<Ifi>>, Memory>
    requires { Passes IsActor (codes "agent") pairs.now }
    ensures { IfOk result (λ found. IsActorGiven (given (codes "agent") pairs.now) found) }
{
    let Some(text) = given(pairs, "agent") else {
        return Ok(None);
    };
    match actor(alloc, text)? {
        Some(value) => Ok(Some(Given {
            text: text.clone()?,
            value,
        })),
        None => unreachable!(),
    }
}

/// The IRI that is given.
pub fn iri_under(pairs: &[Pair], name: &str) -> Result<Option<Iri>, Memory>
    requires { IsTrue (passes is_iri name.now pairs.now) }
    ensures { IfOk result (λ found. found ≡ given name.now pairs.now) }
{
    let Some(text) = given(pairs, name) else {
        return Ok(None);
    };
    match Iri::read(text.clone()?) {
        Ok(iri) => Ok(Some(iri)),
        Err(_) => unreachable!(),
    }
}

/// The instant of the timestamp that is given.
pub fn instant_under(pairs: &[Pair], name: &str) -> Result<Option<Given<Instant>>, Memory>
    ensures { IfOk result (λ found. found ≡ instant_under name.now pairs.now) }
{
    match given(pairs, name) {
        Some(text) => instant_in(text),
        None => Ok(None),
    }
}

fn instant_in(text: &Text) -> Result<Option<Given<Instant>>, Memory>
    ensures { IfOk result (λ found. found ≡ instant_in text.now) }
{
    match read_timestamp(text.as_bytes()) {
        Ok(value) => Ok(Some(Given {
            text: text.clone()?,
            value,
        })),
        Err(_) => Ok(None),
    }
}

/// Whether `true` is given.
pub fn is_asked(pairs: &[Pair], name: &str) -> bool
    ensures { result ≡ is_asked name.now pairs.now }
{
    match given(pairs, name) {
        Some(text) => text.as_str() == "true",
        None => false,
    }
}

/// How many statements a page has at most.
pub fn page_under(pairs: &[Pair]) -> u32
    requires { IsTrue (passes is_limit (codes "limit") pairs.now) }
    ensures { result ≡ page_size pairs.now }
{
    match given(pairs, "limit") {
        Some(text) => capped(digits_value(text.as_bytes())),
        None => MOST_OF_PAGE,
    }
}

fn capped(n: u64) -> u32
    ensures { result ≡ capped n }
{
    if n == 0 || n > u64::from(MOST_OF_PAGE) {
        MOST_OF_PAGE
    } else {
        n as u32
    }
}

/// The form that is given, else the exact one.
pub fn format_under(pairs: &[Pair]) -> Format
    ensures { result ≡ format_under pairs.now }
{
    match given(pairs, "format") {
        Some(text) => format_named(text.as_str()),
        None => Format::Exact,
    }
}

fn format_named(text: &str) -> Format
    ensures { result ≡ format_named text.now }
{
    if text == "ids" {
        Format::Ids
    } else {
        Format::Exact
    }
}

// ---- the positions of a more link

/// P14, but for how many statements there are.
pub fn has_link_numbers(pairs: &[Pair]) -> bool
    ensures { result ≡ has_link_numbers pairs.now }
{
    has_link_number(pairs, "asof")
        && has_link_number(pairs, "after")
        && number_under(pairs, "after") < number_under(pairs, "asof")
}

fn has_link_number(pairs: &[Pair], name: &str) -> bool
    ensures { result ≡ has_link_number name.now pairs.now }
{
    match given(pairs, name) {
        Some(text) => is_link_number(text.as_bytes()),
        None => false,
    }
}

fn is_link_number(digits: &[u8]) -> bool
    ensures { result ≡ is_link_number digits.now }
{
    1 <= digits.len() && digits.len() <= MOST_LINK_DIGITS && are_digits(digits)
}

/// The number of that name in a link.
pub fn number_under(pairs: &[Pair], name: &str) -> u64
    requires { IsTrue (has_link_number name.now pairs.now) }
    ensures { result ≡ number_under name.now pairs.now }
{
    match given(pairs, name) {
        Some(text) => digits_value(text.as_bytes()),
        None => 0,
    }
}
