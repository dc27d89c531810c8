// The ranks of a Group's members, and the test that goes before: no object in them repeats a name.
ghost use Rattle.std.specs.Prelude.{◌≡◌, ◌≤◌, [], length, map, IsTrue};
ghost use Rattle.std.specs.List.Sorted.{IsPermutation};
ghost use Rattle.lrs_json.specs.View.{view, member_view, elements_of, members_of};
ghost use Rattle.xapi_alike.specs.Ranks.{indices_to, has_own_names, have_own_names, are_own_names};

use crate::alike::has_member_named;
use arrayvec::ArrayVec;
use lrs_json::{Member, Tree};
use std::cmp::Ordering;

/// The most members that are ranked: the longest statement has room for no more Agents.
pub const MOST: usize = 16_384;

/// The most members of an object that are held against each other. An Agent has six at most.
const NAMES: usize = 8;

/// Indices of members.
pub type Indices = ArrayVec<u16, MOST>;

/// The indices of all items, by rank. Any order serves, but if items that are alike don't come together, ranks don't
/// tell.
pub fn rank(items: &[Tree], into: &mut Indices)
    requires room { length items.now ≤ MOST }
    requires empty { into.old.items ≡ [] }
    ensures { IsPermutation (indices_to (length items.now)) into.new.items }
{
    fill(items.len(), into);
    into.sort_unstable_by(|i, j| order_at(items, *i, items, *j));
}

fn fill(count: usize, into: &mut Indices)
    requires room { count ≤ MOST }
    requires empty { into.old.items ≡ [] }
    ensures { into.new.items ≡ indices_to count }
{
    for index in 0..count {
        into.push(index as u16);
    }
}

/// The index of the first item of `a`, by rank, beside which none of `b` is left. What comes of it is right whichever
/// it is.
pub fn first_extra(a: &[Tree], left: &[u16], b: &[Tree], right: &[u16]) -> Option<u16> {
    let mut rest = right;
    for i in left {
        let Some(behind) = behind_partner(a, *i, b, rest) else {
            return Some(*i);
        };
        rest = behind;
    }
    None
}

// What follows the first of `right` that ranks with the item, if one does.
fn behind_partner<'t>(a: &[Tree], i: u16, b: &[Tree], right: &'t [u16]) -> Option<&'t [u16]> {
    for (at, j) in right.iter().enumerate() {
        match order_at(a, i, b, *j) {
            Ordering::Greater => {}
            Ordering::Equal => return right.get(at + 1..),
            Ordering::Less => return None,
        }
    }
    None
}

fn order_at(a: &[Tree], i: u16, b: &[Tree], j: u16) -> Ordering {
    match (a.get(usize::from(i)), b.get(usize::from(j))) {
        (Some(x), Some(y)) => order(x, y),
        _ => Ordering::Equal,
    }
}

// Of Agents, by what they are known by.
fn order(a: &Tree, b: &Tree) -> Ordering {
    let texts = order_of_texts(a, b, &["mbox", "mbox_sha1sum", "openid", "name"]);
    match (a.get("account"), b.get("account")) {
        (Some(x), Some(y)) if texts.is_eq() => order_of_texts(x, y, &["homePage", "name"]),
        _ => texts,
    }
}

fn order_of_texts(a: &Tree, b: &Tree, names: &[&str]) -> Ordering {
    for name in names {
        let order = text_of(a, name).cmp(&text_of(b, name));
        if order.is_ne() {
            return order;
        }
    }
    Ordering::Equal
}

fn text_of<'a>(tree: &'a Tree, name: &str) -> Option<&'a str> {
    match tree.get(name) {
        Some(Tree::Words(text)) => Some(text.as_str()),
        _ => None,
    }
}

/// Whether the items are seen at once to repeat no name in an object.
pub fn have_own_names(items: &[Tree]) -> bool
    ensures { IsTrue result → IsTrue (have_own_names (elements_of (map view items.now))) }
{
    for item in items {
        if !has_own_names(item) {
            return false;
        }
    }
    true
}

#[cycle(own_names)]
fn has_own_names(tree: &Tree) -> bool
    ensures { IsTrue result → IsTrue (has_own_names (view tree.now)) }
{
    match tree {
        Tree::List(_) => false,
        Tree::Object(members) => members.len() <= NAMES && are_own_names(members.as_slice()),
        _ => true,
    }
}

#[cycle(own_names)]
fn are_own_names(members: &[Member]) -> bool
    ensures { IsTrue result → IsTrue (are_own_names (members_of (map member_view members.now))) }
{
    for (i, member) in members.iter().enumerate() {
        if has_member_named(member.name.as_str(), &members[i + 1..])
            || !has_own_names(&member.value)
        {
            return false;
        }
    }
    true
}
