// What statements are refused by their form.
ghost use Rattle.std.specs.Prelude.{◌≡◌, IfOk};
ghost use Rattle.std.specs.List.{list_any};
ghost use Rattle.lrs_json.specs.View.{view};
ghost use Rattle.xapi_statement.specs.Statement.{is_too_long};
ghost use Rattle.lrs_made.specs.LrsHistoryRefusals.{broken_in, is_too_large, other_id, refused_batch, refused_form};

use lrs_json::{Memory, Tree};
use lrs_made::MOST_OF_BATCH;
use lrs_names::Id;
use lrs_replies::Refusal;
use lrs_rules::Rule;
use std::alloc::Global;
use xapi_index::have_distinct_ids;
use xapi_statement::{broken_rule, is_too_long, own_id};

/// Why a statement isn't looked at under an id.
pub(crate) fn refused_form(
    alloc: Global,
    id: &Id,
    statement: &Tree,
) -> Result<Option<Refusal>, Memory>
    ensures { IfOk result (λ refused. refused ≡ refused_form id.now (view statement.now)) }
{
    if is_too_long(statement) {
        return Ok(Some(Refusal::TooLong));
    }
    match broken_rule(alloc, statement)? {
        Some(number) => Ok(Some(Refusal::Broken(Rule::S(number)))),
        None => Ok(other_id(id, own_id(statement))),
    }
}

// Why a statement that gives itself an id doesn't go under another.
fn other_id(id: &Id, own: Option<Id>) -> Option<Refusal>
    ensures { result ≡ other_id id.now own }
{
    if own? == *id {
        None
    } else {
        Some(Refusal::Broken(Rule::P(15)))
    }
}

/// Why statements that come together aren't looked at.
pub(crate) fn refused_batch(alloc: Global, statements: &[Tree]) -> Result<Option<Refusal>, Memory>
    ensures { IfOk result (λ refused. refused ≡ refused_batch statements.now) }
{
    if is_too_large(statements) {
        return Ok(Some(Refusal::TooLong));
    }
    if let Some(number) = broken_in(alloc, statements)? {
        return Ok(Some(Refusal::Broken(Rule::S(number))));
    }
    if have_distinct_ids(alloc, statements)? {
        Ok(None)
    } else {
        Ok(Some(Refusal::Broken(Rule::B(9))))
    }
}

fn is_too_large(statements: &[Tree]) -> bool
    ensures { result ≡ is_too_large statements.now }
{
    statements.len() > MOST_OF_BATCH || has_too_long(statements)
}

fn has_too_long(statements: &[Tree]) -> bool
    ensures { result ≡ list_any (λ t. is_too_long (view t)) statements.now }
{
    for statement in statements {
        if is_too_long(statement) {
            return true;
        }
    }
    false
}

// The least rule that is broken by the first that breaks one.
fn broken_in(alloc: Global, statements: &[Tree]) -> Result<Option<u8>, Memory>
    ensures { IfOk result (λ found. found ≡ broken_in statements.now) }
{
    for statement in statements {
        if let Some(number) = broken_rule(alloc, statement)? {
            return Ok(Some(number));
        }
    }
    Ok(None)
}
