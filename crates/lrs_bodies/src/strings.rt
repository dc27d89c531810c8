// The bodies that are objects of strings.
ghost use Rattle.std.specs.Prelude.{◌≡◌, map, option_map};
ghost use Rattle.std.specs.List.{list_all};
ghost use Rattle.lrs_json.specs.View.{member_view, members_of, view};
ghost use Rattle.lrs_names.specs.Members.{are_named_by, has_member, has_only, is_one_of};
ghost use Rattle.lrs_rules.specs.declared.rule.Rule.TheVariants as rule;
ghost use Rattle.lrs_bodies.specs.Bodies.{AreStrings, AreStringsOf, AreTextsOf, BodyBreaks, IsInBody, first_unlike, has_just, names_of, strings_body};
ghost use Rattle.lrs_bodies.specs.Looks.{FindsForm};

use crate::body_value::BodyValue;
use crate::form_refused::FormRefused;
use crate::json::body_tree;
use lrs_http::Request;
use lrs_json::{Items, Member, Text, Tree};
use lrs_names::{has_member, text_under};
use lrs_rules::Rule;
use std::alloc::Global;

/// The body as an object of just these members, each a string, and each with the number of the rule that it breaks
/// if it is none.
pub fn read_strings(
    alloc: Global,
    request: &Request,
    members: &[(&str, u8)],
) -> Result<BodyValue, FormRefused>
    ensures { FindsForm (BodyBreaks (strings_body (map (λ m. (m.0.now, m.1)) members.now)) request.now)
        (IsInBody (strings_body (map (λ m. (m.0.now, m.1)) members.now)) request.now) result }
{
    let body = body_tree(alloc, request)?;
    let strings = strings_of(alloc, &body, members);
    drop(body);
    strings
}

fn strings_of(alloc: Global, tree: &Tree, members: &[(&str, u8)]) -> Result<BodyValue, FormRefused>
    ensures { FindsForm (AreStrings (map (λ m. (m.0.now, m.1)) members.now) (view tree.now))
        (AreStringsOf (map (λ m. (m.0.now, m.1)) members.now) (view tree.now)) result }
{
    if !has_just(tree, members) {
        return Err(FormRefused::Broken(Rule::B(1)));
    }
    let texts = texts_of(alloc, tree, members)?;
    Ok(BodyValue::Strings(texts))
}

// Whether the tree is an object that has these members, and no others.
fn has_just(tree: &Tree, members: &[(&str, u8)]) -> bool
    ensures { result ≡ has_just (names_of (map (λ m. (m.0.now, m.1)) members.now)) (view tree.now) }
{
    has_only(tree, members) && has_all(tree, members)
}

fn has_only(tree: &Tree, members: &[(&str, u8)]) -> bool
    ensures { result ≡ has_only (names_of (map (λ m. (m.0.now, m.1)) members.now)) (view tree.now) }
{
    match tree {
        Tree::Object(own) => are_named_by(own.as_slice(), members),
        _ => false,
    }
}

fn are_named_by(own: &[Member], members: &[(&str, u8)]) -> bool
    ensures { result ≡ are_named_by (names_of (map (λ m. (m.0.now, m.1)) members.now))
        (members_of (map member_view own.now)) }
{
    for member in own {
        if !is_named(members, member.name.as_str()) {
            return false;
        }
    }
    true
}

fn is_named(members: &[(&str, u8)], text: &str) -> bool
    ensures { result ≡ is_one_of (names_of (map (λ m. (m.0.now, m.1)) members.now)) text.now }
{
    for member in members {
        if member.0 == text {
            return true;
        }
    }
    false
}

fn has_all(tree: &Tree, members: &[(&str, u8)]) -> bool
    ensures { result ≡ list_all (λ name. has_member name (view tree.now))
        (names_of (map (λ m. (m.0.now, m.1)) members.now)) }
{
    for member in members {
        if !has_member(tree, member.0) {
            return false;
        }
    }
    true
}

// The texts of the members, in their order, up to the first that is no string.
fn texts_of(alloc: Global, tree: &Tree, members: &[(&str, u8)]) -> Result<Items<Text>, FormRefused>
    ensures { FindsForm (λ broken. broken ≡ option_map (λ number. rule.B number)
        (first_unlike (map (λ m. (m.0.now, m.1)) members.now) (view tree.now)))
        (AreTextsOf (map (λ m. (m.0.now, m.1)) members.now) (view tree.now)) result }
{
    let mut texts = Items::new(alloc);
    for member in members {
        match text_under(tree, member.0) {
            Some(text) => texts.push(Text::of(alloc, text.as_str())?)?,
            None => return Err(FormRefused::Broken(Rule::B(member.1))),
        }
    }
    Ok(texts)
}
