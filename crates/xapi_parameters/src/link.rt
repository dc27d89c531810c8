ghost use Rattle.std.specs.Prelude.{◌≡◌, ◌≢◌, ℕ, Option, None, Some, Err, IfOk};
ghost use Rattle.xapi_parameters.specs.Links.{IsLink};
ghost use Rattle.xapi_parameters.specs.Parameters.{TellsLeast, LeastOfLink};

use crate::asked::number_under;
use crate::broken::broken_by_link;
use crate::query::query_of;
use crate::{Pair, QueryRefused};
use std::alloc::Global;
use xapi_query::MoreLink;

/// The link that the parameters of a GET of more statements ask for (xAPI 1.0.3, part three, section 2.1.3).
pub fn read_link(alloc: Global, pairs: &[Pair]) -> Result<MoreLink, QueryRefused>
    ensures link { IfOk result (λ link. LeastOfLink None pairs.now × IsLink pairs.now link) }

    // The least broken rule, and a refusal by a rule only if one is broken.
    ensures broken { (rule : ℕ) → result ≡ Err (QueryRefused.BadParameter rule) → LeastOfLink (Some rule) pairs.now
        × (rule ≢ 14) }
    ensures bad { result ≡ Err QueryRefused.BadLink → LeastOfLink (Some 14) pairs.now }
    ensures always { (found : Option ℕ) → LeastOfLink found pairs.now → TellsLeast found result }
{
    match broken_by_link(alloc, pairs)? {
        Some(14) => Err(QueryRefused::BadLink),
        Some(number) => Err(QueryRefused::BadParameter { number }),
        None => Ok(MoreLink {
            query: query_of(alloc, pairs)?,
            asof: number_under(pairs, "asof"),
            after: number_under(pairs, "after"),
        }),
    }
}
