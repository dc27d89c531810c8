// The parameters of requests for state documents.
ghost use Rattle.std.specs.Prelude.{◌≡◌, ◌≢◌, ℕ, Option, None, Some, Err, IfOk, IsTrue, MatchOption, codes, map};
ghost use Rattle.std.specs.Option.{option_copied};
ghost use Rattle.lrs_names.specs.Iris.{is_iri};
ghost use Rattle.xapi_parameters.specs.Documents.{AreDropped, AreOwners, AreWanted, DemandsOfDocuments, HasOwners, IsKey, LeastOfDocument, LeastOfDocuments, LeastOfDrop, document_names, have_all, ids_names, instant_given, key_names, names_of_get, owner_names};
ghost use Rattle.xapi_parameters.specs.Parameters.{Passes, TellsLeast, given, has, passes};
ghost use Rattle.xapi_parameters.specs.Values.{IsActor, IsActorOf};

use crate::asked::{id_under, iri_under};
use crate::parameters::{are_among, are_distinct, given, has};
use crate::values::{actor, has_actor, passes_id, passes_iri, passes_timestamp};
use crate::{DroppedDocuments, Pair, QueryRefused};
use lrs_agents::Ifi;
use lrs_json::{Memory, Text};
use lrs_names::Iri;
use lrs_time::{Instant, read_timestamp};
use std::alloc::Global;
use xapi_keys::{StateKey, WantedDocuments};

/// The key of the document that a PUT or a POST writes.
pub fn read_key(alloc: Global, pairs: &[Pair]) -> Result<StateKey, QueryRefused>
    ensures key { IfOk result (λ key. LeastOfDocument None pairs.now × IsKey pairs.now key) }
    ensures broken { (rule : ℕ) → result ≡ Err (QueryRefused.BadParameter rule)
        → LeastOfDocument (Some rule) pairs.now }
    ensures plain { result ≢ Err QueryRefused.BadLink }
    ensures always { (found : Option ℕ) → LeastOfDocument found pairs.now → TellsLeast found result }
{
    match broken_by_write(alloc, pairs)? {
        Some(number) => Err(QueryRefused::BadParameter { number }),
        None => match given(pairs, "stateId") {
            Some(state) => Ok(key_of(alloc, pairs, state)?),
            None => unreachable!(),
        },
    }
}

/// The documents that a DELETE drops.
pub fn read_dropped(alloc: Global, pairs: &[Pair]) -> Result<DroppedDocuments, QueryRefused>
    ensures dropped { IfOk result (λ dropped. LeastOfDrop None pairs.now × AreDropped pairs.now dropped) }
    ensures broken { (rule : ℕ) → result ≡ Err (QueryRefused.BadParameter rule) → LeastOfDrop (Some rule) pairs.now }
    ensures plain { result ≢ Err QueryRefused.BadLink }
    ensures always { (found : Option ℕ) → LeastOfDrop found pairs.now → TellsLeast found result }
{
    match broken_by_drop(alloc, pairs)? {
        Some(number) => Err(QueryRefused::BadParameter { number }),
        None => Ok(dropped_of(alloc, pairs)?),
    }
}

/// What a GET of documents asks for.
pub fn read_documents(alloc: Global, pairs: &[Pair]) -> Result<WantedDocuments, QueryRefused>
    ensures wanted { IfOk result (λ wanted. LeastOfDocuments None pairs.now × AreWanted pairs.now wanted) }
    ensures broken { (rule : ℕ) → result ≡ Err (QueryRefused.BadParameter rule)
        → LeastOfDocuments (Some rule) pairs.now }
    ensures plain { result ≢ Err QueryRefused.BadLink }
    ensures always { (found : Option ℕ) → LeastOfDocuments found pairs.now → TellsLeast found result }
{
    match broken_by_get(alloc, pairs)? {
        Some(number) => Err(QueryRefused::BadParameter { number }),
        None => Ok(wanted_of(alloc, pairs)?),
    }
}

// ---- the least rule that is broken

fn broken_by_write(alloc: Global, pairs: &[Pair]) -> Result<Option<u8>, Memory>
    ensures { IfOk result (λ found. LeastOfDocument found pairs.now) }
{
    broken(alloc, pairs, document_names(), key_names())
}

fn broken_by_drop(alloc: Global, pairs: &[Pair]) -> Result<Option<u8>, Memory>
    ensures { IfOk result (λ found. LeastOfDrop found pairs.now) }
{
    broken(alloc, pairs, document_names(), owner_names())
}

fn broken_by_get(alloc: Global, pairs: &[Pair]) -> Result<Option<u8>, Memory>
    ensures { IfOk result (λ found. LeastOfDocuments found pairs.now) }
{
    match broken(alloc, pairs, names_of_get(pairs), owner_names())? {
        Some(rule) => Ok(Some(rule)),
        None => Ok(if passes_timestamp(pairs, "since") {
            None
        } else {
            Some(9)
        }),
    }
}

// The least of the rules P2 to P7, where these are the names that there are, and those are required.
fn broken(
    alloc: Global,
    pairs: &[Pair],
    names: &[&str],
    required: &[&str],
) -> Result<Option<u8>, Memory>
    ensures { IfOk result (λ found. DemandsOfDocuments (map (λ name. name.now) names.now)
        (map (λ name. name.now) required.now) pairs.now found (found ≡ None)) }
{
    if !are_among(pairs, names) {
        Ok(Some(2))
    } else if !are_distinct(pairs) {
        Ok(Some(3))
    } else if !have_all(pairs, required) {
        Ok(Some(4))
    } else if !passes_id(pairs, "registration") {
        Ok(Some(5))
    } else if !has_actor(alloc, pairs)? {
        Ok(Some(6))
    } else if !passes_iri(pairs, "activityId") {
        Ok(Some(7))
    } else {
        Ok(None)
    }
}

fn have_all(pairs: &[Pair], names: &[&str]) -> bool
    ensures { result ≡ have_all (map (λ name. name.now) names.now) pairs.now }
{
    for name in names {
        if !has(pairs, name) {
            return false;
        }
    }
    true
}

fn document_names() -> &'static [&'static str]
    ensures { map (λ name. name.now) result.now ≡ document_names }
{
    &["activityId", "agent", "registration", "stateId"]
}

fn ids_names() -> &'static [&'static str]
    ensures { map (λ name. name.now) result.now ≡ ids_names }
{
    &["activityId", "agent", "registration", "since"]
}

fn names_of_get(pairs: &[Pair]) -> &'static [&'static str]
    ensures { map (λ name. name.now) result.now ≡ names_of_get pairs.now }
{
    if has(pairs, "stateId") {
        document_names()
    } else {
        ids_names()
    }
}

fn owner_names() -> &'static [&'static str]
    ensures { map (λ name. name.now) result.now ≡ owner_names }
{
    &["activityId", "agent"]
}

fn key_names() -> &'static [&'static str]
    ensures { map (λ name. name.now) result.now ≡ key_names }
{
    &["activityId", "agent", "stateId"]
}

// ---- what is asked for, where no rule is broken

fn dropped_of(alloc: Global, pairs: &[Pair]) -> Result<DroppedDocuments, Memory>
    requires { HasOwners pairs.now }
    ensures { IfOk result (λ dropped. AreDropped pairs.now dropped) }
{
    let state = copied(given(pairs, "stateId"))?;
    match owner_of(alloc, pairs) {
        Ok((activity, agent)) => Ok(DroppedDocuments {
            activity,
            agent,
            registration: id_under(pairs, "registration"),
            state,
        }),
        Err(refused) => {
            drop(state);
            Err(refused)
        }
    }
}

fn wanted_of(alloc: Global, pairs: &[Pair]) -> Result<WantedDocuments, Memory>
    requires { HasOwners pairs.now }
    ensures { IfOk result (λ wanted. AreWanted pairs.now wanted) }
{
    match given(pairs, "stateId") {
        Some(state) => Ok(WantedDocuments::One(key_of(alloc, pairs, state)?)),
        None => {
            let (activity, agent) = owner_of(alloc, pairs)?;
            Ok(WantedDocuments::Ids {
                activity,
                agent,
                registration: id_under(pairs, "registration"),
                since: instant_given(pairs, "since"),
            })
        }
    }
}

// The key of that state id.
fn key_of(alloc: Global, pairs: &[Pair], state: &Text) -> Result<StateKey, Memory>
    requires { HasOwners pairs.now }
    ensures owners { IfOk result (λ key. AreOwners pairs.now key.activity key.agent key.registration) }
    ensures state { IfOk result (λ key. key.state ≡ state.now) }
{
    let state = state.clone()?;
    match owner_of(alloc, pairs) {
        Ok((activity, agent)) => Ok(StateKey {
            activity,
            agent,
            registration: id_under(pairs, "registration"),
            state,
        }),
        Err(refused) => {
            drop(state);
            Err(refused)
        }
    }
}

// The activity and the agent that are given.
fn owner_of(alloc: Global, pairs: &[Pair]) -> Result<(Iri, Ifi), Memory>
    requires { HasOwners pairs.now }
    ensures activity { IfOk result (λ owner. given (codes "activityId") pairs.now ≡ Some owner.0) }
    ensures agent { IfOk result (λ owner. MatchOption (given (codes "agent") pairs.now) ⊥
        (λ text. IsActorOf text owner.1)) }
{
    let activity = activity_of(pairs)?;
    match agent_of(alloc, pairs) {
        Ok(agent) => Ok((activity, agent)),
        Err(refused) => {
            drop(activity);
            Err(refused)
        }
    }
}

fn activity_of(pairs: &[Pair]) -> Result<Iri, Memory>
    requires given { IsTrue (has (codes "activityId") pairs.now) }
    requires iri { IsTrue (passes is_iri (codes "activityId") pairs.now) }
    ensures { IfOk result (λ iri. given (codes "activityId") pairs.now ≡ Some iri) }
{
    match iri_under(pairs, "activityId")? {
        Some(iri) => Ok(iri),
        None => unreachable!(),
    }
}

fn agent_of(alloc: Global, pairs: &[Pair]) -> Result<Ifi, Memory>
    requires given { IsTrue (has (codes "agent") pairs.now) }
    requires actor { Passes IsActor (codes "agent") pairs.now }
    ensures { IfOk result (λ agent. MatchOption (given (codes "agent") pairs.now) ⊥ (λ text. IsActorOf text agent)) }
{
    match given(pairs, "agent") {
        Some(text) => match actor(alloc, text)? {
            Some(agent) => Ok(agent),
            None => unreachable!(),
        },
        None => unreachable!(),
    }
}

fn copied(text: Option<&Text>) -> Result<Option<Text>, Memory>
    ensures { IfOk result (λ copy. copy ≡ option_copied text.entry) }
{
    match text {
        Some(text) => Ok(Some(text.clone()?)),
        None => Ok(None),
    }
}

fn instant_given(pairs: &[Pair], name: &str) -> Option<Instant>
    ensures { result ≡ instant_given name.now pairs.now }
{
    match read_timestamp(given(pairs, name)?.as_bytes()) {
        Ok(instant) => Some(instant),
        Err(_) => None,
    }
}
