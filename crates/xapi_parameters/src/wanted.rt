ghost use Rattle.std.specs.Prelude.{◌≡◌, ◌≢◌, [], ℕ, Option, None, Some, Err, IfOk, IfErr, MatchResult, codes};
ghost use Rattle.xapi_parameters.specs.Parameters.{TellsLeast, LeastOfGet, LeastOfPut};
ghost use Rattle.xapi_parameters.specs.Queries.{id_under};
ghost use Rattle.xapi_parameters.specs.Wants.{IsWanted};

use crate::asked::{format_under, id_under};
use crate::broken::{broken_by_get, broken_by_put};
use crate::query::query_of;
use crate::{Pair, QueryRefused};
use lrs_json::Memory;
use lrs_names::Id;
use std::alloc::Global;
use xapi_query::Wanted;

/// What the parameters of a GET of statements ask for (xAPI 1.0.3, part three, section 2.1.3).
pub fn read_wanted(alloc: Global, pairs: &[Pair]) -> Result<Wanted, QueryRefused>
    ensures wanted { IfOk result (λ wanted. LeastOfGet None pairs.now × IsWanted pairs.now wanted) }

    // The least broken rule, and a refusal by a rule only if one is broken.
    ensures broken { (rule : ℕ) → result ≡ Err (QueryRefused.BadParameter rule) → LeastOfGet (Some rule) pairs.now }
    ensures plain { result ≢ Err QueryRefused.BadLink }
    ensures always { (found : Option ℕ) → LeastOfGet found pairs.now → TellsLeast found result }
{
    match broken_by_get(alloc, pairs)? {
        Some(number) => Err(QueryRefused::BadParameter { number }),
        None => Ok(wanted_by(alloc, pairs)?),
    }
}

// What pairs ask for that break no rule.
fn wanted_by(alloc: Global, pairs: &[Pair]) -> Result<Wanted, Memory>
    requires { LeastOfGet None pairs.now }
    ensures { IfOk result (IsWanted pairs.now) }
{
    let format = format_under(pairs);
    if let Some(id) = id_under(pairs, "statementId") {
        return Ok(Wanted::One(id, format));
    }
    match id_under(pairs, "voidedStatementId") {
        Some(id) => Ok(Wanted::Voided(id, format)),
        None => Ok(Wanted::Many(query_of(alloc, pairs)?)),
    }
}

/// The id under which a PUT keeps its statement (xAPI 1.0.3, part three, section 2.1.1), by its parameters.
pub fn put_id(pairs: &[Pair]) -> Result<Id, QueryRefused>
    ensures id { IfOk result (λ id. LeastOfPut None pairs.now × (id_under (codes "statementId") pairs.now ≡ Some id)) }

    // The least broken rule, and nothing else.
    ensures broken { IfErr result (λ refused. (rule : ℕ) × (refused ≡ QueryRefused.BadParameter rule)
        × LeastOfPut (Some rule) pairs.now) }
    ensures always { (found : Option ℕ) → LeastOfPut found pairs.now → TellsLeast found result }
{
    match broken_by_put(pairs) {
        Some(number) => Err(QueryRefused::BadParameter { number }),
        None => match id_under(pairs, "statementId") {
            Some(id) => Ok(id),
            None => unreachable!(),
        },
    }
}

/// For a route without parameters: P2 exactly if there is one.
pub fn no_parameters(pairs: &[Pair]) -> Result<(), QueryRefused>
    ensures { MatchResult result (λ _. pairs.now ≡ []) (λ refused. (refused ≡ QueryRefused.BadParameter 2)
        × (pairs.now ≢ [])) }
{
    if pairs.is_empty() {
        Ok(())
    } else {
        Err(QueryRefused::BadParameter { number: 2 })
    }
}
