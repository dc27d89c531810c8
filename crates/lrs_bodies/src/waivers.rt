// The body by which a unit is waived.
ghost use Rattle.std.specs.Prelude.{◌≡◌, None, IfOk};
ghost use Rattle.lrs_json.specs.View.{view};
ghost use Rattle.lrs_names.specs.Rules.{least};
ghost use Rattle.lrs_bodies.specs.Bodies.{BodyBreaks, IsInBody, IsLeastOf, waiver_body};
ghost use Rattle.lrs_bodies.specs.DeskBodies.{IsWaiverIn, is_waiver, reason_under, waiver_body_faults};
ghost use Rattle.lrs_bodies.specs.Looks.{FindsForm};

use crate::body_value::BodyValue;
use crate::desk_bodies::{has_iri, iri_under};
use crate::form_refused::FormRefused;
use crate::json::body_tree;
use cmi5_course::Reason;
use lrs_http::Request;
use lrs_json::{Memory, Tree};
use lrs_names::{has_member, has_only, lesser, text_under, unless};
use lrs_rules::Rule;
use std::alloc::Global;

/// The body as a waiver: a unit's id, and why it is waived.
pub fn read_waiver(alloc: Global, request: &Request) -> Result<BodyValue, FormRefused>
    ensures { FindsForm (BodyBreaks waiver_body request.now) (IsInBody waiver_body request.now) result }
{
    let body = body_tree(alloc, request)?;
    let waiver = waiver_of(alloc, &body);
    drop(body);
    waiver
}

fn waiver_of(alloc: Global, tree: &Tree) -> Result<BodyValue, FormRefused>
    ensures { FindsForm (IsLeastOf (waiver_body_faults (view tree.now))) (IsWaiverIn (view tree.now)) result }
{
    match broken_waiver(tree) {
        Some(number) => Err(FormRefused::Broken(Rule::B(number))),
        None => Ok(unbroken_waiver(alloc, tree)?),
    }
}

#[tactic(auto, using(lrs_names::proofs::RuleLemmas::joined))]
fn broken_waiver(tree: &Tree) -> Option<u8>
    ensures { result ≡ least (waiver_body_faults (view tree.now)) }
{
    let members = unless(is_waiver(tree), 1);
    let reason = unless(reason_under(tree).is_some(), 5);
    let unit = unless(has_iri(tree, "unit"), 8);
    lesser(members, lesser(reason, unit))
}

fn is_waiver(tree: &Tree) -> bool
    ensures { result ≡ is_waiver (view tree.now) }
{
    has_only(tree, &["unit", "reason"]) && has_member(tree, "unit") && has_member(tree, "reason")
}

fn reason_under(tree: &Tree) -> Option<Reason>
    ensures { result ≡ reason_under (view tree.now) }
{
    match text_under(tree, "reason") {
        Some(text) => Reason::of(text.as_str()),
        None => None,
    }
}

// A waiver that breaks no rule has a unit and a reason.
fn unbroken_waiver(alloc: Global, tree: &Tree) -> Result<BodyValue, Memory>
    requires { least (waiver_body_faults (view tree.now)) ≡ None }
    ensures { IfOk result (IsWaiverIn (view tree.now)) }
{
    match reason_under(tree) {
        Some(reason) => {
            let unit = iri_under(alloc, tree, "unit")?;
            Ok(BodyValue::Waiver { unit, reason })
        }
        None => unreachable!(),
    }
}
