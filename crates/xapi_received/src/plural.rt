// What the completed form changes in the members on the way to the context activities (xAPI 1.0.3, part two, section
// 2.4.6.2), marked while the received text is written.
ghost use Rattle.std.specs.Prelude.{◌≡◌, ℕ, List, OnOk, map, option_map};
ghost use Rattle.lrs_json.specs.Json.{Json, object};
ghost use Rattle.lrs_json.specs.Parts.{members_in};
ghost use Rattle.lrs_json.specs.View.{view, member_view, members_of};
ghost use Rattle.xapi_format.specs.Completed.{in_array, plural_activities_member, plural_context_member, plural_member, plural_nested_member, plural_object};
ghost use Rattle.xapi_received.specs.Marking.{Marks, MarksMember};
ghost use Rattle.xapi_format.specs.XapiValuesMemberwise.{each_member, with_each_member};

use crate::draft::Draft;
use lrs_json::{Member, Memory, Tree};
use xapi_format::is_nested;

/// What becomes of the value of a member, by its name.
pub trait Plural {
    ghost change: { List ℕ → Json → Json };

    /// Writes the value as it was received, and marks what is shown of it.
    fn mark(name: &str, value: &Tree, draft: &mut Draft) -> Result<(), Memory>
        ensures { OnOk result (Marks (view value.now) (change name.now (view value.now)) draft.old draft.new) };
}

// ---- objects

/// The members, if it is an object.
pub fn members_in(tree: &Tree) -> Option<&[Member]>
    ensures { option_map (λ members. members_of (map member_view members.now)) result ≡ members_in (view tree.now) }
{
    match tree {
        Tree::Object(members) => Some(members.as_slice()),
        _ => None,
    }
}

// Changes the members, if it is an object.
fn mark_each<P: Plural>(tree: &Tree, draft: &mut Draft) -> Result<(), Memory>
    ensures { OnOk result (Marks (view tree.now) (with_each_member P.change (view tree.now)) draft.old draft.new) }
{
    match members_in(tree) {
        Some(members) => mark_members::<P>(members, draft),
        None => draft.put_tree(tree),
    }
}

fn mark_members<P: Plural>(members: &[Member], draft: &mut Draft) -> Result<(), Memory>
    ensures { OnOk result (Marks (object (members_of (map member_view members.now)))
        (object (each_member P.change (members_of (map member_view members.now)))) draft.old draft.new) }
{
    draft.put(b"{")?;
    for (i, member) in members.iter().enumerate() {
        mark_member::<P>(i > 0, member, draft)?;
    }
    draft.put(b"}")
}

/// Writes a member, after others if they stand before, and marks what is shown of it.
pub fn mark_member<P: Plural>(later: bool, member: &Member, draft: &mut Draft) -> Result<(), Memory>
    ensures { OnOk result (MarksMember later later member.now.name (view member.now.value)
        (P.change member.now.name (view member.now.value)) draft.old draft.new) }
{
    let name = member.name.as_str();
    draft.put_name(later, name)?;
    P::mark(name, &member.value, draft)
}

// ---- statements

/// The members of a statement.
pub struct OfStatement;

impl Plural for OfStatement {
    ghost change = { plural_member };

    fn mark(name: &str, value: &Tree, draft: &mut Draft) -> Result<(), Memory> {
        match name {
            "context" => mark_each::<OfContext>(value, draft),
            "object" => mark_object(value, draft),
            _ => draft.put_tree(value),
        }
    }
}

// The object of a statement: a SubStatement has a context of its own.
fn mark_object(tree: &Tree, draft: &mut Draft) -> Result<(), Memory>
    ensures { OnOk result (Marks (view tree.now) (plural_object (view tree.now)) draft.old draft.new) }
{
    if is_nested(tree) {
        mark_each::<OfNested>(tree, draft)
    } else {
        draft.put_tree(tree)
    }
}

// The members of a SubStatement.
struct OfNested;

impl Plural for OfNested {
    ghost change = { plural_nested_member };

    fn mark(name: &str, value: &Tree, draft: &mut Draft) -> Result<(), Memory> {
        match name {
            "context" => mark_each::<OfContext>(value, draft),
            _ => draft.put_tree(value),
        }
    }
}

// ---- contexts

struct OfContext;

impl Plural for OfContext {
    ghost change = { plural_context_member };

    fn mark(name: &str, value: &Tree, draft: &mut Draft) -> Result<(), Memory> {
        match name {
            "contextActivities" => mark_each::<OfContextActivities>(value, draft),
            _ => draft.put_tree(value),
        }
    }
}

struct OfContextActivities;

impl Plural for OfContextActivities {
    ghost change = { plural_activities_member };

    fn mark(_: &str, value: &Tree, draft: &mut Draft) -> Result<(), Memory> {
        mark_in_array(value, draft)
    }
}

fn mark_in_array(tree: &Tree, draft: &mut Draft) -> Result<(), Memory>
    ensures { OnOk result (Marks (view tree.now) (in_array (view tree.now)) draft.old draft.new) }
{
    match members_in(tree) {
        Some(_) => draft.put_in_brackets(tree),
        None => draft.put_tree(tree),
    }
}
