// What the completed form changes in the members on the way to the context activities (xAPI 1.0.3, part two, section
// 2.4.6.2), made as a tree.
ghost use Rattle.std.specs.Prelude.{◌≡◌, ℕ, List, IfOk, OnOk, map};
ghost use Rattle.lrs_json.specs.Json.{Json, array, element, no_elements, object};
ghost use Rattle.lrs_json.specs.View.{view, member_view, members_of};
ghost use Rattle.xapi_format.specs.Completed.{in_array, plural_activities_member, plural_context_member, plural_member, plural_nested_member, plural_object};
ghost use Rattle.xapi_values.specs.Following.{HasOneMore};
ghost use Rattle.xapi_values.specs.Memberwise.{each_member, with_each_member};

use lrs_json::{Items, Member, Memory, Tree};
use xapi_values::{is_nested, push, whole};

/// What becomes of the value of a member, by its name.
pub trait Plural {
    ghost change: { List ℕ → Json → Json };

    /// Makes a tree of it, which is taken over: what stays is moved.
    fn made(name: &str, value: Tree) -> Result<Tree, Memory>
        ensures { IfOk result (λ made. view made ≡ change name.now (view value)) };
}

// ---- objects

// Changes the members, if it is an object.
fn made_each<P: Plural>(tree: Tree) -> Result<Tree, Memory>
    ensures { IfOk result (λ made. view made ≡ with_each_member P.change (view tree)) }
{
    match tree {
        Tree::Object(members) => made_members::<P>(members),
        other => Ok(other),
    }
}

fn made_members<P: Plural>(members: Items<Member>) -> Result<Tree, Memory>
    ensures { IfOk result (λ made. view made ≡ object (each_member P.change (members_of (map member_view members)))) }
{
    let mut built = Items::new(members.allocator());
    for member in members.into_vec() {
        push_made::<P>(member, &mut built)?;
    }
    Ok(whole(built))
}

/// One member more: what becomes of this one.
pub fn push_made<P: Plural>(part: Member, built: &mut Items<Member>) -> Result<(), Memory>
    ensures { let seen = member_view part in OnOk result (HasOneMore built.old seen.0 (P.change seen.0 seen.1)
        built.new) }
{
    let Member { name, value } = part;
    let value = P::made(name.as_str(), value)?;
    push(name, value, built)
}

// ---- statements

/// The members of a statement.
pub struct OfStatement;

impl Plural for OfStatement {
    ghost change = { plural_member };

    fn made(name: &str, value: Tree) -> Result<Tree, Memory> {
        match name {
            "context" => made_each::<OfContext>(value),
            "object" => made_object(value),
            _ => Ok(value),
        }
    }
}

fn made_object(tree: Tree) -> Result<Tree, Memory>
    ensures { IfOk result (λ made. view made ≡ plural_object (view tree)) }
{
    if is_nested(&tree) {
        made_each::<OfNested>(tree)
    } else {
        Ok(tree)
    }
}

// The members of a SubStatement.
struct OfNested;

impl Plural for OfNested {
    ghost change = { plural_nested_member };

    fn made(name: &str, value: Tree) -> Result<Tree, Memory> {
        match name {
            "context" => made_each::<OfContext>(value),
            _ => Ok(value),
        }
    }
}

// ---- contexts

struct OfContext;

impl Plural for OfContext {
    ghost change = { plural_context_member };

    fn made(name: &str, value: Tree) -> Result<Tree, Memory> {
        match name {
            "contextActivities" => made_each::<OfContextActivities>(value),
            _ => Ok(value),
        }
    }
}

struct OfContextActivities;

impl Plural for OfContextActivities {
    ghost change = { plural_activities_member };

    fn made(_: &str, value: Tree) -> Result<Tree, Memory> {
        in_array(value)
    }
}

fn in_array(tree: Tree) -> Result<Tree, Memory>
    ensures { IfOk result (λ made. view made ≡ in_array (view tree)) }
{
    match tree {
        Tree::Object(members) => alone(members),
        other => Ok(other),
    }
}

// The object of these members as the only item of an array.
fn alone(members: Items<Member>) -> Result<Tree, Memory>
    ensures { IfOk result (λ made. view made
        ≡ array (element (object (members_of (map member_view members))) no_elements)) }
{
    let mut items = Items::new(members.allocator());
    items.push(Tree::Object(members))?;
    Ok(Tree::List(items))
}
