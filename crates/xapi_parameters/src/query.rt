ghost use Rattle.std.specs.Prelude.{IfOk};
ghost use Rattle.xapi_parameters.specs.Queries.{AreFilters, IsQuery};

use crate::Pair;
use crate::asked::{
    actor_under, format_under, id_under, instant_under, iri_under, is_asked, page_under,
};
use lrs_json::Memory;
use std::alloc::Global;
use xapi_query::Query;

/// The query that parameters ask for, of which those on filters break no rule.
pub fn query_of(alloc: Global, pairs: &[Pair]) -> Result<Query, Memory>
    requires { AreFilters pairs.now }
    ensures { IfOk result (λ query. IsQuery pairs.now query) }
{
    // The agent comes last: what an earlier `?` lets go is short then.
    Ok(Query {
        verb: iri_under(pairs, "verb")?,
        activity: iri_under(pairs, "activity")?,
        registration: id_under(pairs, "registration"),
        related_agents: is_asked(pairs, "related_agents"),
        related_activities: is_asked(pairs, "related_activities"),
        since: instant_under(pairs, "since")?,
        until: instant_under(pairs, "until")?,
        page: page_under(pairs),
        ascending: is_asked(pairs, "ascending"),
        format: format_under(pairs),
        agent: actor_under(alloc, pairs)?,
    })
}
