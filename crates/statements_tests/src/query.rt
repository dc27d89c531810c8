// The tests of xapi_query and xapi_parameters.
mod documents;
mod statements;

use lrs_json::Text;
use std::alloc::Global;
use std::test::Fail;
use xapi_parameters::{Pair, pairs};

pub(crate) fn found_pairs(alloc: Global, query: &str) -> Result<Vec<Pair>, Fail> {
    Ok(pairs(alloc, &Text::of(alloc, query)?)?)
}
