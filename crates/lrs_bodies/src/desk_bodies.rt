// The bodies of the launch desk: courses, enrolments and launches.
ghost use Rattle.std.specs.Prelude.{◌≡◌, true, None, Some, IfOk, MatchOption, codes};
ghost use Rattle.lrs_agents.specs.Agents.{agent_faults};
ghost use Rattle.lrs_agents.specs.Readings.{IsAgentOf};
ghost use Rattle.lrs_json.specs.Find.{find};
ghost use Rattle.lrs_json.specs.View.{view};
ghost use Rattle.lrs_names.specs.Iris.{is_iri};
ghost use Rattle.lrs_names.specs.Members.{has_member_that, if_member, is_string_that, text_under};
ghost use Rattle.lrs_names.specs.Rules.{least};
ghost use Rattle.lrs_bodies.specs.Bodies.{BodyBreaks, IsInBody, IsLeastOf, course_body, enrolment_body, launch_body};
ghost use Rattle.lrs_bodies.specs.DeskBodies.{IsEnrolmentIn, IsLaunchIn, edition_in, edition_under, enrolment_body_faults, has_iri, is_enrolment, is_launch, tells_learner, is_mode, launch_body_faults, mode_or_normal, names_edition};
ghost use Rattle.lrs_bodies.specs.Looks.{FindsForm};

use crate::body_value::BodyValue;
use crate::form_refused::FormRefused;
use crate::json::body_tree;
use crate::numbers::number_in;
use cmi5_course::Mode;
use lrs_agents::{Agent, NameRefused};
use lrs_http::Request;
use lrs_json::{Memory, Text, Tree};
use lrs_names::{Iri, has_member, has_only, holds_iri, lesser, text_under, unless};
use lrs_rules::{MOST_EDITION, Rule};
use std::alloc::Global;

/// The body as a course that isn't looked into.
pub fn read_course(alloc: Global, request: &Request) -> Result<BodyValue, FormRefused>
    ensures { FindsForm (BodyBreaks course_body request.now) (IsInBody course_body request.now) result }
{
    let course = body_tree(alloc, request)?;
    Ok(BodyValue::Course(course))
}

/// The body as an enrolment: a course's id, an Agent, and perhaps an edition.
pub fn read_enrolment(alloc: Global, request: &Request) -> Result<BodyValue, FormRefused>
    ensures { FindsForm (BodyBreaks enrolment_body request.now) (IsInBody enrolment_body request.now) result }
{
    let body = body_tree(alloc, request)?;
    let enrolment = enrolment_of(alloc, &body);
    drop(body);
    enrolment
}

/// The body as a launch: a unit's id, a mode and where the content sends the learner back to.
pub fn read_launch(alloc: Global, request: &Request) -> Result<BodyValue, FormRefused>
    ensures { FindsForm (BodyBreaks launch_body request.now) (IsInBody launch_body request.now) result }
{
    let body = body_tree(alloc, request)?;
    let launch = launch_of(alloc, &body);
    drop(body);
    launch
}

fn enrolment_of(alloc: Global, tree: &Tree) -> Result<BodyValue, FormRefused>
    ensures { FindsForm (IsLeastOf (enrolment_body_faults (view tree.now))) (IsEnrolmentIn (view tree.now)) result }
{
    match broken_enrolment(tree) {
        Some(number) => Err(FormRefused::Broken(Rule::B(number))),
        None => Ok(unbroken_enrolment(alloc, tree)?),
    }
}

#[tactic(auto, using(lrs_names::proofs::RuleLemmas::joined))]
fn broken_enrolment(tree: &Tree) -> Option<u8>
    ensures { result ≡ least (enrolment_body_faults (view tree.now)) }
{
    let members = unless(is_enrolment(tree), 1);
    let actor = unless(has_learner(tree), 3);
    let course = unless(has_iri(tree, "course"), 8);
    let edition = unless(has_edition_if_any(tree), 10);
    lesser(members, lesser(actor, lesser(course, edition)))
}

fn is_enrolment(tree: &Tree) -> bool
    ensures { result ≡ is_enrolment (view tree.now) }
{
    has_only(tree, &["course", "actor", "edition"])
        && has_member(tree, "course")
        && has_member(tree, "actor")
}

fn has_learner(tree: &Tree) -> bool
    ensures { result ≡ has_member_that (codes "actor") tells_learner (view tree.now) }
{
    match tree.get("actor") {
        Some(actor) => tells_learner(actor),
        None => false,
    }
}

fn tells_learner(tree: &Tree) -> bool
    ensures { result ≡ tells_learner (view tree.now) }
{
    Agent::broken(tree).is_none() && has_member(tree, "account")
}

fn has_edition_if_any(tree: &Tree) -> bool
    ensures { result ≡ if_member (codes "edition") names_edition (view tree.now) }
{
    match tree.get("edition") {
        Some(value) => edition_in(value).is_some(),
        None => true,
    }
}

fn edition_in(tree: &Tree) -> Option<u32>
    ensures { result ≡ edition_in (view tree.now) }
{
    number_in(1, MOST_EDITION, tree)
}

pub(crate) fn has_iri(tree: &Tree, name: &str) -> bool
    ensures { result ≡ has_iri name.now (view tree.now) }
{
    match tree.get(name) {
        Some(value) => holds_iri(value),
        None => false,
    }
}

// An enrolment that breaks no rule has a course and an actor.
fn unbroken_enrolment(alloc: Global, tree: &Tree) -> Result<BodyValue, Memory>
    requires { least (enrolment_body_faults (view tree.now)) ≡ None }
    ensures { IfOk result (IsEnrolmentIn (view tree.now)) }
{
    let course = iri_under(alloc, tree, "course")?;
    let actor = actor_of(alloc, tree)?;
    let edition = edition_under(tree);
    Ok(BodyValue::Enrolment {
        course,
        actor,
        edition,
    })
}

fn edition_under(tree: &Tree) -> Option<u32>
    ensures { edition_under (view tree.now) ≡ result }
{
    match tree.get("edition") {
        Some(value) => edition_in(value),
        None => None,
    }
}

fn actor_of(alloc: Global, tree: &Tree) -> Result<Agent, Memory>
    requires { has_member_that (codes "actor") tells_learner (view tree.now) ≡ true }
    ensures { IfOk result (λ agent. MatchOption (find (codes "actor") (view tree.now)) ⊥ (λ a. IsAgentOf a agent)) }
{
    match tree.get("actor") {
        Some(actor) => agent_of(alloc, actor),
        None => unreachable!(),
    }
}

fn agent_of(alloc: Global, tree: &Tree) -> Result<Agent, Memory>
    requires { least (agent_faults (view tree.now)) ≡ None }
    ensures { IfOk result (IsAgentOf (view tree.now)) }
{
    match Agent::read(alloc, tree) {
        Ok(agent) => Ok(agent),
        Err(NameRefused::Memory) => Err(Memory),
        Err(NameRefused::Broken { .. }) => unreachable!(),
    }
}

pub(crate) fn iri_under(alloc: Global, tree: &Tree, name: &str) -> Result<Iri, Memory>
    requires { has_iri name.now (view tree.now) ≡ true }
    ensures { IfOk result (λ iri. text_under name.now (view tree.now) ≡ Some iri) }
{
    match text_under(tree, name) {
        Some(text) => iri_of(alloc, text),
        None => unreachable!(),
    }
}

fn iri_of(alloc: Global, text: &Text) -> Result<Iri, Memory>
    requires { is_iri text.now ≡ true }
    ensures { IfOk result (λ iri. iri ≡ text.now) }
{
    match Iri::read(text.clone()?) {
        Ok(iri) => Ok(iri),
        Err(_) => unreachable!(),
    }
}

fn launch_of(alloc: Global, tree: &Tree) -> Result<BodyValue, FormRefused>
    ensures { FindsForm (IsLeastOf (launch_body_faults (view tree.now))) (IsLaunchIn (view tree.now)) result }
{
    match broken_launch(tree) {
        Some(number) => Err(FormRefused::Broken(Rule::B(number))),
        None => Ok(unbroken_launch(alloc, tree)?),
    }
}

#[tactic(auto, using(lrs_names::proofs::RuleLemmas::joined))]
fn broken_launch(tree: &Tree) -> Option<u8>
    ensures { result ≡ least (launch_body_faults (view tree.now)) }
{
    let members = unless(is_launch(tree), 1);
    let mode = unless(has_mode_if_any(tree), 4);
    let return_url = unless(has_iri_if_any(tree, "returnURL"), 7);
    let unit = unless(has_iri(tree, "unit"), 8);
    lesser(members, lesser(mode, lesser(return_url, unit)))
}

fn is_launch(tree: &Tree) -> bool
    ensures { result ≡ is_launch (view tree.now) }
{
    has_only(tree, &["unit", "mode", "returnURL"]) && has_member(tree, "unit")
}

fn has_mode_if_any(tree: &Tree) -> bool
    ensures { result ≡ if_member (codes "mode") (is_string_that is_mode) (view tree.now) }
{
    match tree.get("mode") {
        Some(value) => holds_mode(value),
        None => true,
    }
}

fn holds_mode(tree: &Tree) -> bool
    ensures { result ≡ is_string_that is_mode (view tree.now) }
{
    match tree {
        Tree::Words(word) => Mode::of(word.as_str()).is_some(),
        _ => false,
    }
}

fn has_iri_if_any(tree: &Tree, name: &str) -> bool
    ensures { result ≡ if_member name.now (is_string_that is_iri) (view tree.now) }
{
    match tree.get(name) {
        Some(value) => holds_iri(value),
        None => true,
    }
}

// A launch that breaks no rule has a unit, and a mode and an address if any are given.
fn unbroken_launch(alloc: Global, tree: &Tree) -> Result<BodyValue, Memory>
    requires { least (launch_body_faults (view tree.now)) ≡ None }
    ensures { IfOk result (IsLaunchIn (view tree.now)) }
{
    let mode = mode_of(tree);
    let return_url = iri_if_any(alloc, tree, "returnURL")?;
    let unit = iri_under(alloc, tree, "unit")?;
    Ok(BodyValue::Launch {
        unit,
        mode,
        return_url,
    })
}

fn mode_of(tree: &Tree) -> Mode
    requires { if_member (codes "mode") (is_string_that is_mode) (view tree.now) ≡ true }
    ensures { mode_or_normal (text_under (codes "mode") (view tree.now)) ≡ Some result }
{
    match text_under(tree, "mode") {
        Some(word) => match Mode::of(word.as_str()) {
            Some(mode) => mode,
            None => unreachable!(),
        },
        None => Mode::Normal,
    }
}

fn iri_if_any(alloc: Global, tree: &Tree, name: &str) -> Result<Option<Iri>, Memory>
    requires { if_member name.now (is_string_that is_iri) (view tree.now) ≡ true }
    ensures { IfOk result (λ iri. text_under name.now (view tree.now) ≡ iri) }
{
    match text_under(tree, name) {
        Some(text) => Ok(Some(iri_of(alloc, text)?)),
        None => Ok(None),
    }
}
