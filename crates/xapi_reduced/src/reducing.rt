// The form of a completed statement with ids alone. Each of the following takes a value over and moves what stays.
ghost use Rattle.std.specs.Prelude.{◌≡◌, ℕ, List, IfOk, OnOk, map};
ghost use Rattle.lrs_json.specs.Json.{Json, object};
ghost use Rattle.lrs_json.specs.View.{member_view, members_of, view};
ghost use Rattle.xapi_values.specs.Following.{HasOneMore};
ghost use Rattle.xapi_reduced.specs.Reduced.{has_identifier, is_anonymous, only, reduced, reduced_activities, reduced_context_member, reduced_group, reduced_group_member, reduced_member, reduced_nested_member, reduced_object, reduced_part, reduced_party, reduced_plain_object, with_each_item, with_only};
ghost use Rattle.xapi_values.specs.Memberwise.{each_member, with_each_member};

use lrs_json::{Items, Member, Memory, Tree};
use lrs_names::{has_member, is_one_of};
use xapi_values::{Kind, is_nested, push, whole};

/// The form of a completed statement with ids alone.
#[tactic(auto, unfolding(crate::specs::Reduced::reduced))]
pub fn reduced(tree: Tree) -> Result<Tree, Memory>
    ensures { IfOk result (λ made. view made ≡ reduced (view tree)) }
{
    with_each_member::<OfStatement>(tree)
}

// ---- each member of an object

// What becomes of the value of a member, by its name.
trait Part {
    ghost change: { List ℕ → Json → Json };

    fn reduced(name: &str, value: Tree) -> Result<Tree, Memory>
        ensures { IfOk result (λ made. view made ≡ change name.now (view value)) };
}

fn with_each_member<P: Part>(tree: Tree) -> Result<Tree, Memory>
    ensures { IfOk result (λ made. view made ≡ with_each_member P.change (view tree)) }
{
    match tree {
        Tree::Object(members) => each_member::<P>(members),
        other => Ok(other),
    }
}

fn each_member<P: Part>(members: Items<Member>) -> Result<Tree, Memory>
    ensures { IfOk result (λ made. view made ≡ object (each_member P.change (members_of (map member_view members)))) }
{
    let mut built = Items::new(members.allocator());
    for member in members.into_vec() {
        push_reduced::<P>(member, &mut built)?;
    }
    Ok(whole(built))
}

fn push_reduced<P: Part>(part: Member, built: &mut Items<Member>) -> Result<(), Memory>
    ensures { let seen = member_view part in OnOk result (HasOneMore built.old seen.0 (P.change seen.0 seen.1)
        built.new) }
{
    let Member { name, value } = part;
    let value = P::reduced(name.as_str(), value)?;
    push(name, value, built)
}

// ---- statements

struct OfStatement;

impl Part for OfStatement {
    ghost change = { reduced_member };

    fn reduced(name: &str, value: Tree) -> Result<Tree, Memory> {
        match name {
            "object" => reduced_object(value),
            "authority" => reduced_party(value),
            _ => reduced_part(name, value),
        }
    }
}

// A member other than the object, of a statement or a SubStatement.
fn reduced_part(name: &str, value: Tree) -> Result<Tree, Memory>
    ensures { IfOk result (λ made. view made ≡ reduced_part name.now (view value)) }
{
    match name {
        "actor" => reduced_party(value),
        "verb" => with_only(&["id"], value),
        "context" => with_each_member::<OfContext>(value),
        _ => Ok(value),
    }
}

// ---- objects

#[tactic(auto, unfolding(crate::specs::Reduced::reduced_object))]
fn reduced_object(object: Tree) -> Result<Tree, Memory>
    ensures { IfOk result (λ made. view made ≡ reduced_object (view object)) }
{
    if is_nested(&object) {
        with_each_member::<OfSubStatement>(object)
    } else {
        reduced_plain_object(object)
    }
}

struct OfSubStatement;

impl Part for OfSubStatement {
    ghost change = { reduced_nested_member };

    fn reduced(name: &str, value: Tree) -> Result<Tree, Memory> {
        match name {
            "object" => reduced_plain_object(value),
            _ => reduced_part(name, value),
        }
    }
}

// An object that is no SubStatement.
fn reduced_plain_object(object: Tree) -> Result<Tree, Memory>
    ensures { IfOk result (λ made. view made ≡ reduced_plain_object (view object)) }
{
    match Kind::of(&object) {
        Kind::Unstated | Kind::Activity => with_only(&ACTIVITY_NAMES, object),
        Kind::Agent | Kind::Group => reduced_party(object),
        Kind::StatementRef | Kind::SubStatement | Kind::Other => Ok(object),
    }
}

// ---- contexts

struct OfContext;

impl Part for OfContext {
    ghost change = { reduced_context_member };

    fn reduced(name: &str, value: Tree) -> Result<Tree, Memory> {
        match name {
            "instructor" | "team" => reduced_party(value),
            "contextActivities" => with_each_member::<OfContextActivities>(value),
            _ => Ok(value),
        }
    }
}

struct OfContextActivities;

impl Part for OfContextActivities {
    ghost change = { reduced_activities };

    fn reduced(_: &str, value: Tree) -> Result<Tree, Memory> {
        with_only_in_each(&ACTIVITY_NAMES, value)
    }
}

// ---- Agents and Groups

#[tactic(auto, unfolding(crate::specs::Reduced::reduced_party))]
fn reduced_party(party: Tree) -> Result<Tree, Memory>
    ensures { IfOk result (λ made. view made ≡ reduced_party (view party)) }
{
    if is_anonymous(&party) {
        reduced_group(party)
    } else {
        with_only(&AGENT_NAMES, party)
    }
}

// A Group that is known by its members alone.
fn is_anonymous(party: &Tree) -> bool
    ensures { result ≡ is_anonymous (view party.now) }
{
    match Kind::of(party) {
        Kind::Group => !has_identifier(party),
        _ => false,
    }
}

fn has_identifier(party: &Tree) -> bool
    ensures { result ≡ has_identifier (view party.now) }
{
    has_member(party, "mbox")
        || has_member(party, "mbox_sha1sum")
        || has_member(party, "openid")
        || has_member(party, "account")
}

fn reduced_group(group: Tree) -> Result<Tree, Memory>
    ensures { IfOk result (λ made. view made ≡ reduced_group (view group)) }
{
    let group = with_only(&GROUP_NAMES, group)?;
    with_each_member::<OfGroup>(group)
}

struct OfGroup;

impl Part for OfGroup {
    ghost change = { reduced_group_member };

    fn reduced(name: &str, value: Tree) -> Result<Tree, Memory> {
        match name {
            "member" => with_only_in_each(&AGENT_NAMES, value),
            _ => Ok(value),
        }
    }
}

// ---- the members of some names

// What tells which Activity one is.
const ACTIVITY_NAMES: [&str; 2] = ["objectType", "id"];

// What tells which Group one is that is known by its members alone.
const GROUP_NAMES: [&str; 2] = ["objectType", "member"];

// What tells which Agent or identified Group one is.
const AGENT_NAMES: [&str; 5] = ["objectType", "mbox", "mbox_sha1sum", "openid", "account"];

// Of each object in an array the members of these names.
fn with_only_in_each(names: &[&str], tree: Tree) -> Result<Tree, Memory>
    ensures { IfOk result (λ made. view made
        ≡ with_each_item (with_only (map (λ name. name.now) names.now)) (view tree)) }
{
    match tree {
        Tree::List(items) => Ok(Tree::List(only_in_each(names, items)?)),
        other => Ok(other),
    }
}

fn only_in_each(names: &[&str], items: Items<Tree>) -> Result<Items<Tree>, Memory>
    ensures { IfOk result (λ made. map view made
        ≡ map (λ t. with_only (map (λ name. name.now) names.now) (view t)) items) }
{
    let mut built = Items::new(items.allocator());
    for item in items.into_vec() {
        built.push(with_only(names, item)?)?;
    }
    Ok(built)
}

// Of an object the members of these names.
fn with_only(names: &[&str], tree: Tree) -> Result<Tree, Memory>
    ensures { IfOk result (λ made. view made ≡ with_only (map (λ name. name.now) names.now) (view tree)) }
{
    match tree {
        Tree::Object(members) => only(names, members),
        other => Ok(other),
    }
}

fn only(names: &[&str], members: Items<Member>) -> Result<Tree, Memory>
    ensures { IfOk result (λ made. view made
        ≡ object (only (map (λ name. name.now) names.now) (members_of (map member_view members)))) }
{
    let mut built = Items::new(members.allocator());
    for member in members.into_vec() {
        let Member { name, value } = member;
        if is_one_of(names, name.as_str()) {
            push(name, value, &mut built)?;
        }
    }
    Ok(whole(built))
}
