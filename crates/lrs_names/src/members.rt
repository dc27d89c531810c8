// What is asked of a value by its kind and by its members.
ghost use Rattle.std.specs.Prelude.{◌≡◌, map, option_map};
ghost use Rattle.lrs_json.specs.View.{view, member_view, members_of};
ghost use Rattle.lrs_json.specs.Parts.{text_in};
ghost use Rattle.lrs_names.specs.Members.{is_string, is_word, text_under, has_member, has_member_that, if_member, is_one_of, are_named_by, has_only};

use lrs_json::{Member, Text, Tree};

/// Whether the tree is a string.
pub fn is_string(tree: &Tree) -> bool
    ensures { result ≡ is_string (view tree.now) }
{
    matches!(tree, Tree::Words(_))
}

/// Whether the tree is the string that spells the word.
pub fn is_word(tree: &Tree, word: &str) -> bool
    ensures { result ≡ is_word word.now (view tree.now) }
{
    match tree {
        Tree::Words(text) => text.as_str() == word,
        _ => false,
    }
}

// The text of a string.
fn text_in(tree: &Tree) -> Option<&Text>
    ensures { option_map (λ t. t.now) result ≡ text_in (view tree.now) }
{
    match tree {
        Tree::Words(text) => Some(text),
        _ => None,
    }
}

/// The text of the member of that name, if it is a string.
pub fn text_under<'a>(tree: &'a Tree, name: &str) -> Option<&'a Text>
    ensures { option_map (λ t. t.now) result ≡ text_under name.now (view tree.now) }
{
    match tree.get(name) {
        Some(value) => text_in(value),
        None => None,
    }
}

/// Whether the tree is an object with a member of that name.
pub fn has_member(tree: &Tree, name: &str) -> bool
    ensures { result ≡ has_member name.now (view tree.now) }
{
    tree.get(name).is_some()
}

/// Whether the member of that name stands and is a string.
pub fn has_string(tree: &Tree, name: &str) -> bool
    ensures { result ≡ has_member_that name.now is_string (view tree.now) }
{
    match tree.get(name) {
        Some(value) => is_string(value),
        None => false,
    }
}

/// Whether the member of that name is missing or a string.
pub fn is_string_if_there(tree: &Tree, name: &str) -> bool
    ensures { result ≡ if_member name.now is_string (view tree.now) }
{
    match tree.get(name) {
        Some(value) => is_string(value),
        None => true,
    }
}

/// Whether the tree is an object with only members of these names.
pub fn has_only(tree: &Tree, names: &[&str]) -> bool
    ensures { result ≡ has_only (map (λ name. name.now) names.now) (view tree.now) }
{
    match tree {
        Tree::Object(members) => are_named_by(members.as_slice(), names),
        _ => false,
    }
}

fn are_named_by(members: &[Member], names: &[&str]) -> bool
    ensures { result ≡ are_named_by (map (λ name. name.now) names.now) (members_of (map member_view members.now)) }
{
    for member in members {
        if !is_one_of(names, member.name.as_str()) {
            return false;
        }
    }
    true
}

/// Whether the text is one of these names.
pub fn is_one_of(names: &[&str], text: &str) -> bool
    ensures { result ≡ is_one_of (map (λ name. name.now) names.now) text.now }
{
    for name in names {
        if *name == text {
            return true;
        }
    }
    false
}
