// The bodies by which sessions are abandoned: one, which has nothing to say, and those that are idle.
ghost use Rattle.std.specs.Prelude.{◌≡◌};
ghost use Rattle.lrs_json.specs.View.{view};
ghost use Rattle.lrs_bodies.specs.Bodies.{BodyBreaks, IsInBody, IsLeastOf, empty_body, sweep_body};
ghost use Rattle.lrs_bodies.specs.DeskBodies.{IsSweepIn, empty_body_faults, idle_under, is_sweep, sweep_body_faults};
ghost use Rattle.lrs_bodies.specs.Looks.{FindsForm};
ghost use Rattle.lrs_bodies.specs.declared.body_value.BodyValue.TheVariants as body;

use crate::body_value::BodyValue;
use crate::form_refused::FormRefused;
use crate::json::body_tree;
use crate::numbers::number_in;
use lrs_http::Request;
use lrs_json::Tree;
use lrs_names::{has_member, has_only};
use lrs_rules::{LONGEST_IDLE, Rule};
use std::alloc::Global;

/// The body as an object without members.
pub fn read_empty(alloc: Global, request: &Request) -> Result<BodyValue, FormRefused>
    ensures { FindsForm (BodyBreaks empty_body request.now) (IsInBody empty_body request.now) result }
{
    let body = body_tree(alloc, request)?;
    let empty = empty_of(&body);
    drop(body);
    empty
}

fn empty_of(tree: &Tree) -> Result<BodyValue, FormRefused>
    ensures { FindsForm (IsLeastOf (empty_body_faults (view tree.now))) (λ value. value ≡ body.Empty) result }
{
    if has_only(tree, &[]) {
        Ok(BodyValue::Empty)
    } else {
        Err(FormRefused::Broken(Rule::B(1)))
    }
}

/// The body as a sweep: how long its sessions have been idle.
pub fn read_sweep(alloc: Global, request: &Request) -> Result<BodyValue, FormRefused>
    ensures { FindsForm (BodyBreaks sweep_body request.now) (IsInBody sweep_body request.now) result }
{
    let body = body_tree(alloc, request)?;
    let sweep = sweep_of(&body);
    drop(body);
    sweep
}

fn sweep_of(tree: &Tree) -> Result<BodyValue, FormRefused>
    ensures { FindsForm (IsLeastOf (sweep_body_faults (view tree.now))) (IsSweepIn (view tree.now)) result }
{
    if !is_sweep(tree) {
        return Err(FormRefused::Broken(Rule::B(1)));
    }
    match idle_under(tree) {
        Some(idle) => Ok(BodyValue::Sweep { idle }),
        None => Err(FormRefused::Broken(Rule::B(6))),
    }
}

fn is_sweep(tree: &Tree) -> bool
    ensures { result ≡ is_sweep (view tree.now) }
{
    has_only(tree, &["idle"]) && has_member(tree, "idle")
}

fn idle_under(tree: &Tree) -> Option<u32>
    ensures { result ≡ idle_under (view tree.now) }
{
    match tree.get("idle") {
        Some(value) => number_in(0, LONGEST_IDLE, value),
        None => None,
    }
}
