// What the parameters of a query give.
ghost use Rattle.std.specs.Prelude.{◌≡◌, MatchResult};
ghost use Rattle.lrs_rules.specs.declared.rule.Rule.TheVariants as rule;
ghost use Rattle.xapi_parameters.specs.Pairs.{AreTexts, pairs_of};
ghost use Rattle.lrs_routes.specs.Forms.{parameters_of};
ghost use Rattle.lrs_routes.specs.Looks.{IfBroken, ReadsParameters, refused_of_query};
ghost use Rattle.lrs_routes.specs.Operations.{no_parameters, parameters_of_document, parameters_of_documents, parameters_of_drop, parameters_of_get, parameters_of_link, parameters_of_put};

use crate::values::ParameterValue;
use lrs_bodies::FormRefused;
use lrs_json::Text;
use lrs_rules::Rule;
use std::alloc::Global;
use xapi_parameters::{
    Pair, QueryRefused, no_parameters, pairs, put_id, read_documents, read_dropped, read_key,
    read_link, read_wanted,
};

/// The parameters of a query, if they are texts; none without a query.
pub(crate) fn decoded(alloc: Global, query: &Option<Text>) -> Result<Vec<Pair>, FormRefused>
    ensures { MatchResult result (λ pairs. (pairs.items ≡ parameters_of query.now) × AreTexts (parameters_of query.now))
        (λ refused. IfBroken refused (λ r. (r ≡ rule.P 1) × (¬ AreTexts (parameters_of query.now)))) }
{
    match query {
        Some(query) => pairs_in(alloc, query),
        None => Ok(Vec::new(alloc)),
    }
}

fn pairs_in(alloc: Global, query: &Text) -> Result<Vec<Pair>, FormRefused>
    ensures { MatchResult result (λ pairs. (pairs.items ≡ pairs_of query.now) × AreTexts (pairs_of query.now))
        (λ refused. IfBroken refused (λ r. (r ≡ rule.P 1) × (¬ AreTexts (pairs_of query.now)))) }
{
    match pairs(alloc, query) {
        Ok(pairs) => Ok(pairs),
        Err(refused) => Err(refused_of_query(refused)),
    }
}

/// The rule that a refusal of parameters means.
pub(crate) fn refused_of_query(refused: QueryRefused) -> FormRefused
    ensures { result ≡ refused_of_query refused }
{
    match refused {
        QueryRefused::BadParameter { number } => FormRefused::Broken(Rule::P(number)),
        QueryRefused::BadLink => FormRefused::Broken(Rule::P(14)),
        QueryRefused::Memory => FormRefused::Memory,
    }
}

/// What a GET of statements asks for.
pub(crate) fn wanted_in(alloc: Global, pairs: &[Pair]) -> Result<ParameterValue, QueryRefused>
    ensures { ReadsParameters parameters_of_get pairs.now result }
{
    match read_wanted(alloc, pairs) {
        Ok(wanted) => Ok(ParameterValue::Wanted(wanted)),
        Err(refused) => Err(refused),
    }
}

/// The position at which a list goes on.
pub(crate) fn link_in(alloc: Global, pairs: &[Pair]) -> Result<ParameterValue, QueryRefused>
    ensures { ReadsParameters parameters_of_link pairs.now result }
{
    match read_link(alloc, pairs) {
        Ok(link) => Ok(ParameterValue::Link(link)),
        Err(refused) => Err(refused),
    }
}

/// The id under which a statement is put.
pub(crate) fn id_in(pairs: &[Pair]) -> Result<ParameterValue, QueryRefused>
    ensures { ReadsParameters parameters_of_put pairs.now result }
{
    match put_id(pairs) {
        Ok(id) => Ok(ParameterValue::Id(id)),
        Err(refused) => Err(refused),
    }
}

/// The key of the document that is written.
pub(crate) fn key_in(alloc: Global, pairs: &[Pair]) -> Result<ParameterValue, QueryRefused>
    ensures { ReadsParameters parameters_of_document pairs.now result }
{
    match read_key(alloc, pairs) {
        Ok(key) => Ok(ParameterValue::Document(key)),
        Err(refused) => Err(refused),
    }
}

/// What a GET of documents asks for.
pub(crate) fn documents_in(alloc: Global, pairs: &[Pair]) -> Result<ParameterValue, QueryRefused>
    ensures { ReadsParameters parameters_of_documents pairs.now result }
{
    match read_documents(alloc, pairs) {
        Ok(wanted) => Ok(ParameterValue::Documents(wanted)),
        Err(refused) => Err(refused),
    }
}

/// The documents that are dropped.
pub(crate) fn dropped_in(alloc: Global, pairs: &[Pair]) -> Result<ParameterValue, QueryRefused>
    ensures { ReadsParameters parameters_of_drop pairs.now result }
{
    match read_dropped(alloc, pairs) {
        Ok(dropped) => Ok(ParameterValue::Dropped(dropped)),
        Err(refused) => Err(refused),
    }
}

/// That there are none.
pub(crate) fn nothing_in(pairs: &[Pair]) -> Result<ParameterValue, QueryRefused>
    ensures { ReadsParameters no_parameters pairs.now result }
{
    match no_parameters(pairs) {
        Ok(()) => Ok(ParameterValue::Nothing),
        Err(refused) => Err(refused),
    }
}
