// The walk of two values side by side.
ghost use Rattle.std.specs.Prelude.{◌≡◌, ◌↔◌, ◌==◌, ◌&&◌, ◌≤◌, length, map, IsTrue, IfSome};
ghost use Rattle.std.specs.List.Sorted.{IsPermutation};
ghost use Rattle.lrs_json.specs.View.{view, member_view, elements_of, members_of};
ghost use Rattle.xapi_alike.specs.Normal.{normal, normal_one, normal_items, normal_members, more, none};
ghost use Rattle.xapi_alike.specs.Alike.{alike, all_alike, as_often, same_bag, count, same_count, named_alike, are_named};
ghost use Rattle.xapi_alike.specs.Steps.{is_alike_within, is_named_within, any_alike, has_member_named};
ghost use Rattle.xapi_alike.specs.Ranks.{indices_to, have_own_names};

use crate::leaves::{is_same_amount, is_same_text};
use crate::ranks::{Indices, MOST, first_extra, have_own_names, rank};
use crate::role::Role;
use lrs_json::{Member, Tree};
use lrs_json_equal::Partners;
use xapi_values::Kind;

// Fewer items are counted, and fewer members are looked for one by one.
const FEW: usize = 32;

/// Whether the values are the same in that role.
#[cycle(alike)]
pub fn are_alike(role: Role, a: &Tree, b: &Tree) -> bool
    ensures { result ≡ alike (normal role (view a.now)) (normal role (view b.now)) }
{
    if !role.is_plural() {
        return values_are_alike(role, a, b);
    }
    match (a, b) {
        (Tree::List(x), Tree::Object(_)) => only_is_alike(x.as_slice(), b),
        (Tree::Object(_), Tree::List(y)) => is_alike_to_only(a, y.as_slice()),
        _ => values_are_alike(Role::Activities, a, b),
    }
}

#[cycle(alike)]
fn only_is_alike(items: &[Tree], b: &Tree) -> bool
    ensures { result ≡ all_alike (normal_items Role.Activity (elements_of (map view items.now)))
        (more (normal_one Role.Activity (view b.now)) none) }
{
    match items {
        [] => false,
        [only] => values_are_alike(Role::Activity, only, b),
        [_, _, ..] => false,
    }
}

#[cycle(alike)]
fn is_alike_to_only(a: &Tree, items: &[Tree]) -> bool
    ensures { result ≡ all_alike (more (normal_one Role.Activity (view a.now)) none)
        (normal_items Role.Activity (elements_of (map view items.now))) }
{
    match items {
        [] => false,
        [only] => values_are_alike(Role::Activity, a, only),
        [_, _, ..] => false,
    }
}

// Where no array may stand for an object.
#[cycle(alike)]
fn values_are_alike(role: Role, a: &Tree, b: &Tree) -> bool
    ensures { result ≡ alike (normal_one role (view a.now)) (normal_one role (view b.now)) }
{
    match (a, b) {
        (Tree::Null, Tree::Null) => true,
        (Tree::Bool(x), Tree::Bool(y)) => *x == *y,
        (Tree::Number(x), Tree::Number(y)) => is_same_amount(x, y),
        (Tree::Words(x), Tree::Words(y)) => is_same_text(role, x, y),
        (Tree::List(x), Tree::List(y)) => {
            if role.is_unordered() {
                bags_are_alike(role.of_item(), x.as_slice(), y.as_slice())
            } else {
                items_are_alike(role.of_item(), x.as_slice(), y.as_slice())
            }
        }
        (Tree::Object(x), Tree::Object(y)) => {
            let kind = role.kind(Kind::of(a));
            kind.same(role.kind(Kind::of(b)))
                && objects_are_alike(role.of_object(kind), x.as_slice(), y.as_slice())
        }
        _ => false,
    }
}

#[cycle(alike)]
fn items_are_alike(role: Role, a: &[Tree], b: &[Tree]) -> bool
    ensures { result ≡ all_alike (normal_items role (elements_of (map view a.now)))
        (normal_items role (elements_of (map view b.now))) }
{
    if a.len() != b.len() {
        return false;
    }
    for (x, y) in a.iter().zip(b) {
        if !are_alike(role, x, y) {
            return false;
        }
    }
    true
}

#[cycle(alike)]
fn bags_are_alike(role: Role, a: &[Tree], b: &[Tree]) -> bool
    ensures { result ≡ same_bag (normal_items role (elements_of (map view a.now)))
        (normal_items role (elements_of (map view b.now))) }
{
    if a.len() != b.len() {
        return false;
    }
    if are_identical(a, b) {
        return true;
    }
    match ranked_are_alike(role, a, b) {
        Some(answer) => answer,
        None => each_occurs_as_often(role, a, a, b),
    }
}

// Many items are laid side by side by rank. No answer if they are few, or if ranks don't tell.
#[cycle(alike)]
fn ranked_are_alike(role: Role, a: &[Tree], b: &[Tree]) -> Option<bool>
    requires { length a.now ≡ length b.now }
    ensures { IfSome result (λ answer. answer ≡ same_bag (normal_items role (elements_of (map view a.now)))
        (normal_items role (elements_of (map view b.now)))) }
{
    if a.len() < FEW || a.len() > MOST || !have_own_names(a) || !have_own_names(b) {
        return None;
    }
    ranks_are_alike(role, a, b)
}

// Not inlined, since the indices would then lie on the stack at each level of a value.
#[cycle(alike)]
#[inline(never)]
fn ranks_are_alike(role: Role, a: &[Tree], b: &[Tree]) -> Option<bool>
    requires as_many { length a.now ≡ length b.now }
    requires room { length a.now ≤ MOST }
    requires own_left { IsTrue (have_own_names (elements_of (map view a.now))) }
    requires own_right { IsTrue (have_own_names (elements_of (map view b.now))) }
    ensures { IfSome result (λ answer. answer ≡ same_bag (normal_items role (elements_of (map view a.now)))
        (normal_items role (elements_of (map view b.now)))) }
{
    let mut left = Indices::new();
    let mut right = Indices::new();
    rank(a, &mut left);
    rank(b, &mut right);
    if are_alike_by_rank(role, a, left.as_slice(), b, right.as_slice()) {
        return Some(true);
    }
    let extra = first_extra(a, left.as_slice(), b, right.as_slice())?;
    is_told_apart(role, a, b, extra)
}

#[cycle(alike)]
fn are_alike_by_rank(role: Role, a: &[Tree], left: &[u16], b: &[Tree], right: &[u16]) -> bool
    requires as_many { length a.now ≡ length b.now }
    requires ranked_left { IsPermutation (indices_to (length a.now)) left.now }
    requires ranked_right { IsPermutation (indices_to (length b.now)) right.now }
    requires own_left { IsTrue (have_own_names (elements_of (map view a.now))) }
    requires own_right { IsTrue (have_own_names (elements_of (map view b.now))) }
    ensures { IsTrue result → IsTrue (same_bag (normal_items role (elements_of (map view a.now)))
        (normal_items role (elements_of (map view b.now)))) }
{
    for (i, j) in left.iter().zip(right) {
        let (Some(x), Some(y)) = (a.get(usize::from(*i)), b.get(usize::from(*j))) else {
            return false;
        };
        if !are_alike(role, x, y) {
            return false;
        }
    }
    true
}

// If the item at that index occurs in one more often than in the other, these aren't the same.
#[cycle(alike)]
fn is_told_apart(role: Role, a: &[Tree], b: &[Tree], at: u16) -> Option<bool>
    ensures { IfSome result (λ answer. answer ≡ same_bag (normal_items role (elements_of (map view a.now)))
        (normal_items role (elements_of (map view b.now)))) }
{
    let item = a.get(usize::from(at))?;
    if occurs_as_often(role, item, a, b) {
        None
    } else {
        Some(false)
    }
}

// Members mostly come again in their order.
fn are_identical(a: &[Tree], b: &[Tree]) -> bool
    ensures { IsTrue result ↔ (a.now ≡ b.now) }
{
    if a.len() != b.len() {
        return false;
    }
    for (x, y) in a.iter().zip(b) {
        if !x.same(y) {
            return false;
        }
    }
    true
}

// Whether each item occurs in both as often.
#[cycle(alike)]
fn each_occurs_as_often(role: Role, items: &[Tree], a: &[Tree], b: &[Tree]) -> bool
    ensures { result ≡ as_often (normal_items role (elements_of (map view items.now)))
        (normal_items role (elements_of (map view a.now))) (normal_items role (elements_of (map view b.now))) }
{
    for item in items {
        if !occurs_as_often(role, item, a, b) {
            return false;
        }
    }
    true
}

#[cycle(alike)]
#[tactic(auto, unfolding(crate::specs::Alike::same_count))]
fn occurs_as_often(role: Role, item: &Tree, a: &[Tree], b: &[Tree]) -> bool
    ensures { result ≡ same_count (alike (normal role (view item.now)))
        (normal_items role (elements_of (map view a.now))) (normal_items role (elements_of (map view b.now))) }
{
    count_alike(role, item, a) == count_alike(role, item, b)
}

#[cycle(alike)]
fn count_alike(role: Role, item: &Tree, items: &[Tree]) -> usize
    ensures { result ≡ count (alike (normal role (view item.now)))
        (normal_items role (elements_of (map view items.now))) }
{
    let mut found = 0;
    for other in items {
        if are_alike(role, item, other) {
            found += 1;
        }
    }
    found
}

#[cycle(alike)]
fn objects_are_alike(role: Role, a: &[Member], b: &[Member]) -> bool
    ensures { result ≡ (named_alike (normal_members role (members_of (map member_view a.now)))
        (normal_members role (members_of (map member_view b.now))) && are_named
        (normal_members role (members_of (map member_view b.now)))
        (normal_members role (members_of (map member_view a.now)))) }
{
    members_are_alike(role, a, b) && are_named(role, b, a)
}

#[cycle(alike)]
fn members_are_alike(role: Role, a: &[Member], b: &[Member]) -> bool
    ensures { result
        ≡ named_alike (normal_members role (members_of (map member_view a.now)))
        (normal_members role (members_of (map member_view b.now))) }
{
    if a.len() < FEW {
        few_are_alike(role, a, b)
    } else {
        many_are_alike(role, a, b)
    }
}

#[cycle(alike)]
fn few_are_alike(role: Role, a: &[Member], b: &[Member]) -> bool
    ensures { result
        ≡ named_alike (normal_members role (members_of (map member_view a.now)))
        (normal_members role (members_of (map member_view b.now))) }
{
    let mut at = 0_usize;
    for member in a {
        if !is_alike_within(role, member, b, at) {
            return false;
        }
        at = at.saturating_add(1);
    }
    true
}

// Not inlined, since the partners would then lie on the stack at each level of a value.
#[cycle(alike)]
#[inline(never)]
fn many_are_alike(role: Role, a: &[Member], b: &[Member]) -> bool
    ensures { result
        ≡ named_alike (normal_members role (members_of (map member_view a.now)))
        (normal_members role (members_of (map member_view b.now))) }
{
    let mut partners = Partners::new();
    let mut at = 0_usize;
    for member in a {
        if !is_alike_within(role, member, b, partners.index(a, at, b)) {
            return false;
        }
        at = at.saturating_add(1);
    }
    true
}

// The member mostly stands at that index, or soon after it.
#[cycle(alike)]
fn is_alike_within(role: Role, member: &Member, members: &[Member], at: usize) -> bool
    ensures { result ≡ is_alike_within role (member_view member.now).0 (member_view member.now).1
        (normal_members role (members_of (map member_view members.now))) }
{
    let name = member.name.as_str();
    if role.is_passed_over(name) {
        return true;
    }
    any_is_alike_from(role.of_member(name), name, &member.value, members, at)
}

// Looks from that index on, and then at what stands before it.
#[cycle(alike)]
fn any_is_alike_from(role: Role, name: &str, value: &Tree, members: &[Member], at: usize) -> bool
    ensures { result ≡ any_alike role name.now (view value.now) (members_of (map member_view members.now)) }
{
    let (front, back) = members.split_at(at.min(members.len()));
    any_is_alike(role, name, value, back) || any_is_alike(role, name, value, front)
}

#[cycle(alike)]
fn any_is_alike(role: Role, name: &str, value: &Tree, members: &[Member]) -> bool
    ensures { result ≡ any_alike role name.now (view value.now) (members_of (map member_view members.now)) }
{
    for member in members {
        if member.name.as_str() == name && are_alike(role, value, &member.value) {
            return true;
        }
    }
    false
}

// Whether each name that counts in the first stands in the second.
#[inline(never)]
fn are_named(role: Role, a: &[Member], b: &[Member]) -> bool
    ensures { result ≡ are_named (normal_members role (members_of (map member_view a.now)))
        (normal_members role (members_of (map member_view b.now))) }
{
    let mut partners = Partners::new();
    let mut at = 0_usize;
    for member in a {
        if !is_named_within(role, member.name.as_str(), b, partners.index(a, at, b)) {
            return false;
        }
        at = at.saturating_add(1);
    }
    true
}

#[tactic(auto, using(crate::proofs::Walks::has_normal))]
fn is_named_within(role: Role, name: &str, members: &[Member], at: usize) -> bool
    ensures { result ≡ is_named_within role name.now (normal_members role
        (members_of (map member_view members.now))) }
{
    role.is_passed_over(name) || has_member_from(name, members, at)
}

// Looks from that index on, and then at what stands before it.
fn has_member_from(name: &str, members: &[Member], at: usize) -> bool
    ensures { result ≡ has_member_named name.now (members_of (map member_view members.now)) }
{
    let (front, back) = members.split_at(at.min(members.len()));
    has_member_named(name, back) || has_member_named(name, front)
}

pub fn has_member_named(name: &str, members: &[Member]) -> bool
    ensures { result ≡ has_member_named name.now (members_of (map member_view members.now)) }
{
    for member in members {
        if member.name.as_str() == name {
            return true;
        }
    }
    false
}
