ghost use Rattle.std.specs.Prelude.{◌≡◌, ◌++◌, false, map, IsUtf8, OnOk, OnErr};
ghost use Rattle.lrs_json.specs.Spellable.{IsSpellable, AreSpellableElements, AreSpellableMembers};
ghost use Rattle.lrs_json.specs.View.{view, member_view, elements_of, members_of};
ghost use Rattle.lrs_json.specs.Written.{Extends, comma_if, written_tree, list_text, object_text, text_of_member};

use crate::appending::{put, put_comma, put_name, put_quoted};
use crate::{Member, Memory, Tree};

/// Appends the written form of the tree, or nothing if memory runs out.
pub fn write(tree: &Tree, into: &mut Vec<u8>) -> Result<(), Memory>
    ensures ok { OnOk result (into.new.items ≡ into.old.items ++ written_tree tree.now) }
    ensures err { OnErr result (into.new.items ≡ into.old.items) }
    ensures spellable { OnOk result (IsSpellable (view tree.now)) }
{
    let length = into.len();
    match put_tree(tree, into) {
        Ok(()) => Ok(()),
        Err(error) => {
            into.truncate(length);
            Err(error)
        }
    }
}

/// Appends the written form of the tree, or a part of it if memory runs out in the middle.
#[cycle(write)]
pub fn put_tree(tree: &Tree, into: &mut Vec<u8>) -> Result<(), Memory>
    ensures ok { OnOk result (into.new.items ≡ into.old.items ++ written_tree tree.now) }
    ensures kept { Extends into.old.items into.new.items }
    ensures spellable { OnOk result (IsSpellable (view tree.now)) }
{
    match tree {
        Tree::Null => put(b"null", into),
        Tree::Bool(true) => put(b"true", into),
        Tree::Bool(false) => put(b"false", into),
        Tree::Number(spelling) => put(spelling.as_bytes(), into),
        Tree::Words(text) => put_quoted(text.as_str(), into),
        Tree::List(items) => {
            into.push(b'[')?;
            put_items(items.as_slice(), into)
        }
        Tree::Object(members) => {
            into.push(b'{')?;
            put_members(members.as_slice(), into)
        }
    }
}

// The items and the closing bracket.
#[cycle(write)]
#[tactic(auto, using(crate::proofs::Extending::extends_trans))]
fn put_items(items: &[Tree], into: &mut Vec<u8>) -> Result<(), Memory>
    ensures ok { OnOk result (into.new.items ≡ into.old.items ++ list_text false items.now) }
    ensures kept { Extends into.old.items into.new.items }
    ensures spellable { OnOk result (AreSpellableElements (elements_of (map view items.now))) }
{
    for (i, item) in items.iter().enumerate() {
        put_item(i > 0, item, into)?;
    }
    put(b"]", into)
}

#[cycle(write)]
fn put_item(later: bool, item: &Tree, into: &mut Vec<u8>) -> Result<(), Memory>
    ensures ok { OnOk result (into.new.items ≡ into.old.items ++ (comma_if later ++ written_tree item.now)) }
    ensures kept { Extends into.old.items into.new.items }
    ensures spellable { OnOk result (IsSpellable (view item.now)) }
{
    put_comma(later, into)?;
    put_tree(item, into)
}

// The members and the closing brace.
#[cycle(write)]
#[tactic(auto, using(crate::proofs::Extending::extends_trans))]
fn put_members(members: &[Member], into: &mut Vec<u8>) -> Result<(), Memory>
    ensures ok { OnOk result (into.new.items ≡ into.old.items ++ object_text false members.now) }
    ensures kept { Extends into.old.items into.new.items }
    ensures spellable { OnOk result (AreSpellableMembers (members_of (map member_view members.now))) }
{
    for (i, member) in members.iter().enumerate() {
        put_member(i > 0, member, into)?;
    }
    put(b"}", into)
}

#[cycle(write)]
fn put_member(later: bool, member: &Member, into: &mut Vec<u8>) -> Result<(), Memory>
    ensures ok { OnOk result (into.new.items ≡ into.old.items ++ (comma_if later ++ text_of_member member.now)) }
    ensures kept { Extends into.old.items into.new.items }
    ensures name { OnOk result (IsUtf8 (member_view member.now).0) }
    ensures spellable { OnOk result (IsSpellable (member_view member.now).1) }
{
    put_name(later, member.name.as_str(), into)?;
    put_tree(&member.value, into)
}
