// The least rule that parameters break.
ghost use Rattle.std.specs.Prelude.{◌≡◌, None, IfOk, map};
ghost use Rattle.xapi_parameters.specs.Parameters.{DemandsOfList, LeastOfGet, LeastOfLink, LeastOfPut, asks_for_one, get_names, link_names};

use crate::Pair;
use crate::asked::has_link_numbers;
use crate::parameters::{are_among, are_distinct, has};
use crate::values::{
    has_actor, has_format, has_ids, has_iris, has_limit, has_no_attachments, has_timestamps,
    has_truths, passes_id,
};
use lrs_json::Memory;
use std::alloc::Global;

pub fn broken_by_put(pairs: &[Pair]) -> Option<u8>
    ensures { LeastOfPut result pairs.now }
{
    if !are_among(pairs, &["statementId"]) {
        Some(2)
    } else if !are_distinct(pairs) {
        Some(3)
    } else if !has(pairs, "statementId") {
        Some(4)
    } else if !passes_id(pairs, "statementId") {
        Some(5)
    } else {
        None
    }
}

pub fn broken_by_get(alloc: Global, pairs: &[Pair]) -> Result<Option<u8>, Memory>
    ensures { IfOk result (λ found. LeastOfGet found pairs.now) }
{
    match broken_by_list(alloc, pairs, get_names())? {
        Some(rule) => Ok(Some(rule)),
        None => Ok(if !has_no_attachments(pairs) {
            Some(12)
        } else if !asks_for_one(pairs) {
            Some(13)
        } else {
            None
        }),
    }
}

pub fn broken_by_link(alloc: Global, pairs: &[Pair]) -> Result<Option<u8>, Memory>
    ensures { IfOk result (λ found. LeastOfLink found pairs.now) }
{
    match broken_by_list(alloc, pairs, link_names())? {
        Some(rule) => Ok(Some(rule)),
        None => Ok(if has_link_numbers(pairs) {
            None
        } else {
            Some(14)
        }),
    }
}

// The least of the rules P2 to P11, if these are the names that there are.
fn broken_by_list(alloc: Global, pairs: &[Pair], names: &[&str]) -> Result<Option<u8>, Memory>
    ensures { IfOk result (λ found.
        DemandsOfList (map (λ name. name.now) names.now) pairs.now found (found ≡ None)) }
{
    if !are_among(pairs, names) {
        Ok(Some(2))
    } else if !are_distinct(pairs) {
        Ok(Some(3))
    } else if !has_ids(pairs) {
        Ok(Some(5))
    } else if !has_actor(alloc, pairs)? {
        Ok(Some(6))
    } else if !has_iris(pairs) {
        Ok(Some(7))
    } else if !has_truths(pairs) {
        Ok(Some(8))
    } else if !has_timestamps(pairs) {
        Ok(Some(9))
    } else if !has_limit(pairs) {
        Ok(Some(10))
    } else if !has_format(pairs) {
        Ok(Some(11))
    } else {
        Ok(None)
    }
}

fn get_names() -> &'static [&'static str]
    ensures { map (λ name. name.now) result.now ≡ get_names }
{
    &[
        "statementId",
        "voidedStatementId",
        "agent",
        "verb",
        "activity",
        "registration",
        "related_activities",
        "related_agents",
        "since",
        "until",
        "limit",
        "ascending",
        "format",
        "attachments",
    ]
}

fn link_names() -> &'static [&'static str]
    ensures { map (λ name. name.now) result.now ≡ link_names }
{
    &[
        "asof",
        "after",
        "agent",
        "verb",
        "activity",
        "registration",
        "related_activities",
        "related_agents",
        "since",
        "until",
        "limit",
        "ascending",
        "format",
    ]
}

fn asks_for_one(pairs: &[Pair]) -> bool
    ensures { result ≡ asks_for_one pairs.now }
{
    let one = has(pairs, "statementId");
    let voided = has(pairs, "voidedStatementId");
    !(one || voided)
        || (!(one && voided)
            && are_among(
                pairs,
                &["statementId", "voidedStatementId", "format", "attachments"],
            ))
}
