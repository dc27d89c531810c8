// What each value has to be, if it is given.
ghost use Rattle.std.specs.Prelude.{◌≡◌, IfOk, MatchBool, MatchOption, codes};
ghost use Rattle.std.specs.Char.{is_ascii_digit};
ghost use Rattle.std.specs.List.{list_all};
ghost use Rattle.lrs_names.specs.Iris.{is_iri};
ghost use Rattle.xapi_parameters.specs.Parameters.{Passes, has_ids, has_iris, has_timestamps, has_truths, passes};
ghost use Rattle.xapi_parameters.specs.Values.{IsActor, IsActorOf, is_format, is_id, is_limit, is_no, is_timestamp, is_truth};

use crate::Pair;
use crate::parameters::given;
use lrs_agents::{Ifi, broken_agent_or_group};
use lrs_json::{Memory, Text};
use lrs_json_spelled::value_in;
use lrs_names::{Id, Iri};
use lrs_time::read_timestamp;
use std::alloc::Global;

/// The most digits of a limit.
const MOST_LIMIT_DIGITS: usize = 9;

/// P5
pub fn has_ids(pairs: &[Pair]) -> bool
    ensures { result ≡ has_ids pairs.now }
{
    passes_id(pairs, "statementId")
        && passes_id(pairs, "voidedStatementId")
        && passes_id(pairs, "registration")
}

pub fn passes_id(pairs: &[Pair], name: &str) -> bool
    ensures { result ≡ passes is_id name.now pairs.now }
{
    match given(pairs, name) {
        Some(text) => Id::read(text.as_bytes()).is_some(),
        None => true,
    }
}

/// P6
pub fn has_actor(alloc: Global, pairs: &[Pair]) -> Result<bool, Memory>
    ensures { IfOk result (λ met. MatchBool met (Passes IsActor (codes "agent") pairs.now)
        (¬ Passes IsActor (codes "agent") pairs.now)) }
{
    match given(pairs, "agent") {
        Some(text) => Ok(actor(alloc, text)?.is_some()),
        None => Ok(true),
    }
}

/// The identifier of the agent, or of the group, whose JSON the text is.
pub fn actor(alloc: Global, text: &Text) -> Result<Option<Ifi>, Memory>
    ensures { IfOk result (λ found. MatchOption found (¬ IsActor text.now) (IsActorOf text.now)) }
{
    match value_in(alloc, text.as_bytes())? {
        Some(tree) => match broken_agent_or_group(&tree, 6) {
            Some(_) => Ok(None),
            None => Ifi::of(alloc, &tree),
        },
        None => Ok(None),
    }
}

/// P7
pub fn has_iris(pairs: &[Pair]) -> bool
    ensures { result ≡ has_iris pairs.now }
{
    passes_iri(pairs, "verb") && passes_iri(pairs, "activity")
}

pub fn passes_iri(pairs: &[Pair], name: &str) -> bool
    ensures { result ≡ passes is_iri name.now pairs.now }
{
    match given(pairs, name) {
        Some(text) => Iri::is(text),
        None => true,
    }
}

/// P8
pub fn has_truths(pairs: &[Pair]) -> bool
    ensures { result ≡ has_truths pairs.now }
{
    passes_truth(pairs, "related_agents")
        && passes_truth(pairs, "related_activities")
        && passes_truth(pairs, "ascending")
}

fn passes_truth(pairs: &[Pair], name: &str) -> bool
    ensures { result ≡ passes is_truth name.now pairs.now }
{
    match given(pairs, name) {
        Some(text) => text.as_str() == "true" || text.as_str() == "false",
        None => true,
    }
}

/// P9
pub fn has_timestamps(pairs: &[Pair]) -> bool
    ensures { result ≡ has_timestamps pairs.now }
{
    passes_timestamp(pairs, "since") && passes_timestamp(pairs, "until")
}

pub fn passes_timestamp(pairs: &[Pair], name: &str) -> bool
    ensures { result ≡ passes is_timestamp name.now pairs.now }
{
    match given(pairs, name) {
        Some(text) => read_timestamp(text.as_bytes()).is_ok(),
        None => true,
    }
}

/// P10
pub fn has_limit(pairs: &[Pair]) -> bool
    ensures { result ≡ passes is_limit (codes "limit") pairs.now }
{
    match given(pairs, "limit") {
        Some(text) => is_limit(text.as_bytes()),
        None => true,
    }
}

fn is_limit(digits: &[u8]) -> bool
    ensures { result ≡ is_limit digits.now }
{
    1 <= digits.len() && digits.len() <= MOST_LIMIT_DIGITS && are_digits(digits)
}

pub fn are_digits(digits: &[u8]) -> bool
    ensures { result ≡ list_all is_ascii_digit digits.now }
{
    digits.iter().all(|digit| digit.is_ascii_digit())
}

/// P11
pub fn has_format(pairs: &[Pair]) -> bool
    ensures { result ≡ passes is_format (codes "format") pairs.now }
{
    match given(pairs, "format") {
        Some(text) => text.as_str() == "exact" || text.as_str() == "ids",
        None => true,
    }
}

/// P12
pub fn has_no_attachments(pairs: &[Pair]) -> bool
    ensures { result ≡ passes is_no (codes "attachments") pairs.now }
{
    match given(pairs, "attachments") {
        Some(text) => text.as_str() == "false",
        None => true,
    }
}
