// The trees of statements that come, and of those that they void. Of a statement that is held its text is kept: its
// tree is read ahead, where memory may run out.
ghost use Rattle.std.specs.Prelude.{◌≡◌, [], ◌∷◌, ◌++◌, OnOk};
ghost use Rattle.std.specs.Option.{option_copied, option_or};
ghost use Rattle.std.specs.Str.{bytes_eq};
ghost use Rattle.lrs_parts.specs.Trees.{AreTargets, voided_in};
ghost use Rattle.lrs_register.specs.Register.{with_new};
ghost use Rattle.xapi_statement.specs.Statements.{held_under, voided_by};

use cmi5_running_verdicts::{Index, voided_by};
use lrs_json::{Items, Memory};
use lrs_names::Id;
use std::mem;
use xapi_statement::{HeldStatement, StoredStatement};

// ---- read ahead

/// Reads the trees of the held statements that others void which are to come. What was read before is let go.
pub(crate) fn read_targets(
    statements: &Index,
    coming: &[StoredStatement],
    trees: &mut Items<StoredStatement>,
) -> Result<(), Memory>
    ensures { OnOk result (AreTargets trees.new statements.now.held coming.now) }
{
    clear(trees);
    read_each(statements, coming, trees)
}

fn read_each(
    statements: &Index,
    coming: &[StoredStatement],
    trees: &mut Items<StoredStatement>,
) -> Result<(), Memory>
    requires { trees.old ≡ [] }
    ensures { OnOk result (AreTargets trees.new statements.now.held coming.now) }
{
    for statement in coming {
        read_one(statements, statement, trees)?;
    }
    Ok(())
}

// The tree of the statement that this one voids, if it is held, behind the others.
fn read_one(
    statements: &Index,
    statement: &StoredStatement,
    trees: &mut Items<StoredStatement>,
) -> Result<(), Memory>
    ensures { OnOk result (trees.new ≡ with_new trees.old (voided_in statements.now.held statement.now)) }
{
    match held_voided(statements, statement) {
        Some(held) => read_tree(held, trees),
        None => Ok(()),
    }
}

fn read_tree(held: &HeldStatement, trees: &mut Items<StoredStatement>) -> Result<(), Memory>
    ensures { OnOk result (trees.new ≡ trees.old ++ held.now ∷ []) }
{
    let whole = held.whole(trees.allocator())?;
    trees.push(whole)
}

// The held statement that this one voids.
fn held_voided<'a>(statements: &'a Index, statement: &StoredStatement) -> Option<&'a HeldStatement>
    ensures { option_copied result ≡ voided_in statements.now.held statement.now }
{
    match voided_by(statement) {
        Some(id) => statements.find(&id),
        None => None,
    }
}

// ---- let go

/// Lets these trees go.
pub(crate) fn clear(trees: &mut Items<StoredStatement>)
    ensures { trees.new ≡ [] }
{
    *trees = Items::new(trees.allocator());
}

/// Gives these trees away: none are left.
pub(crate) fn take_out(trees: &mut Items<StoredStatement>) -> Items<StoredStatement>
    ensures value { result ≡ trees.old }
    ensures nothing { trees.new ≡ [] }
{
    let none = Items::new(trees.allocator());
    mem::replace(trees, none)
}

// ---- found

/// The tree of the statement that this one voids: among those that were read, or else among those that come with it.
pub(crate) fn tree_voided_by<'a>(
    trees: &'a [StoredStatement],
    coming: &'a [StoredStatement],
    statement: &StoredStatement,
) -> Option<&'a StoredStatement>
    ensures { option_copied result
        ≡ option_or (voided_in trees.now statement.now) (voided_in coming.now statement.now) }
{
    match voided_in(trees, statement) {
        Some(tree) => Some(tree),
        None => voided_in(coming, statement),
    }
}

fn voided_in<'a>(
    trees: &'a [StoredStatement],
    statement: &StoredStatement,
) -> Option<&'a StoredStatement>
    ensures { option_copied result ≡ voided_in trees.now statement.now }
{
    match voided_by(statement) {
        Some(id) => first_under(trees, &id),
        None => None,
    }
}

// The first of that id.
fn first_under<'a>(trees: &'a [StoredStatement], id: &Id) -> Option<&'a StoredStatement>
    ensures { option_copied result ≡ held_under id.now trees.now }
{
    for tree in trees {
        if is_same_id(tree.id(), *id) {
            return Some(tree);
        }
    }
    None
}

pub(crate) fn is_same_id(id: Id, other: Id) -> bool
    ensures { result ≡ bytes_eq id other }
{
    id == other
}
