//! What is left of some bytes behind the written form of a tree, or of a part of one: for the layers that compare a
//! text with what it was written from, without writing that anew.
ghost use Rattle.std.specs.Prelude.{◌≡◌, ◌↔◌, ◌<◌, [], ◌∷◌, ◌++◌, false, length, map, IsTrue, IsUtf8, IfSome, OnSome};
ghost use Rattle.std.specs.List.{flat_map};
ghost use Rattle.std.specs.Option.{option_and_then, option_copied};
ghost use Rattle.lrs_json.specs.Behind.{left_behind};
ghost use Rattle.lrs_json.specs.Spellable.{IsSpellable, AreSpellableElements, AreSpellableMembers};
ghost use Rattle.lrs_json.specs.View.{view, member_view, elements_of, members_of};
ghost use Rattle.lrs_json.specs.Written.{comma_if, escaped, list_text, object_text, quoted, text_of_member, written_tree};

use crate::appending::{plain_len, written_byte};
use crate::{Member, Tree};

/// Whether the bytes are the written form of the tree. Takes no memory.
pub fn is_written(tree: &Tree, bytes: &[u8]) -> bool
    ensures same { IsTrue result ↔ (written_tree tree.now ≡ bytes.now) }
    ensures spellable { IsTrue result → IsSpellable (view tree.now) }
{
    match behind_tree(tree, bytes) {
        Some(left) => left.is_empty(),
        None => false,
    }
}

/// What is left of the bytes behind the written form of the tree, if they begin with it.
#[cycle(matching)]
pub fn behind_tree<'a>(tree: &Tree, bytes: &'a [u8]) -> Option<&'a [u8]>
    ensures left { option_copied result ≡ left_behind (written_tree tree.now) bytes.now }
    ensures spellable { OnSome result (IsSpellable (view tree.now)) }
{
    match tree {
        Tree::Null => behind(b"null", bytes),
        Tree::Bool(true) => behind(b"true", bytes),
        Tree::Bool(false) => behind(b"false", bytes),
        Tree::Number(spelling) => behind(spelling.as_bytes(), bytes),
        Tree::Words(text) => behind_quoted(text.as_bytes(), bytes),
        Tree::List(items) => behind_items(items.as_slice(), behind(b"[", bytes)?),
        Tree::Object(members) => behind_members(members.as_slice(), behind(b"{", bytes)?),
    }
}

/// Behind the items with commas between them, and the closing bracket.
#[cycle(matching)]
pub fn behind_items<'a>(items: &[Tree], bytes: &'a [u8]) -> Option<&'a [u8]>
    ensures left { option_copied result ≡ left_behind (list_text false items.now) bytes.now }
    ensures spellable { OnSome result (AreSpellableElements (elements_of (map view items.now))) }
{
    let mut left = bytes;
    for (i, item) in items.iter().enumerate() {
        left = behind_item(i > 0, item, left)?;
    }
    behind(b"]", left)
}

#[cycle(matching)]
fn behind_item<'a>(later: bool, item: &Tree, bytes: &'a [u8]) -> Option<&'a [u8]>
    ensures left { option_copied result ≡ left_behind (comma_if later ++ written_tree item.now) bytes.now }
    ensures spellable { OnSome result (IsSpellable (view item.now)) }
{
    behind_tree(item, behind_comma(later, bytes)?)
}

// Behind the members and the closing brace.
#[cycle(matching)]
fn behind_members<'a>(members: &[Member], bytes: &'a [u8]) -> Option<&'a [u8]>
    ensures left { option_copied result ≡ left_behind (object_text false members.now) bytes.now }
    ensures spellable { OnSome result (AreSpellableMembers (members_of (map member_view members.now))) }
{
    let mut left = bytes;
    for (i, member) in members.iter().enumerate() {
        left = behind_member(i > 0, member, left)?;
    }
    behind(b"}", left)
}

#[cycle(matching)]
fn behind_member<'a>(later: bool, member: &Member, bytes: &'a [u8]) -> Option<&'a [u8]>
    ensures left { option_copied result ≡ left_behind (comma_if later ++ text_of_member member.now) bytes.now }
    ensures name { OnSome result (IsUtf8 (member_view member.now).0) }
    ensures spellable { OnSome result (IsSpellable (member_view member.now).1) }
{
    let name = behind_comma(later, bytes)?;
    let colon = behind_quoted(member.name.as_bytes(), name)?;
    behind_tree(&member.value, behind(b":", colon)?)
}

#[tactic(auto, using(crate::proofs::Behind::behind_nothing))]
fn behind_comma<'a>(later: bool, bytes: &'a [u8]) -> Option<&'a [u8]>
    ensures { option_copied result ≡ left_behind (comma_if later) bytes.now }
{
    if later {
        behind(b",", bytes)
    } else {
        Some(bytes)
    }
}

/// Behind the text as a written string.
pub fn behind_quoted<'a>(text: &[u8], bytes: &'a [u8]) -> Option<&'a [u8]>
    ensures { option_copied result ≡ left_behind (quoted text.now) bytes.now }
{
    let inside = behind(b"\"", bytes)?;
    behind(b"\"", behind_escaped(text, inside)?)
}

// Behind a text as it stands between its quotes.
#[tactic(auto, using(crate::proofs::Behind::behind_nothing))]
fn behind_escaped<'a>(text: &[u8], bytes: &'a [u8]) -> Option<&'a [u8]>
    ensures { option_copied result ≡ left_behind (flat_map escaped text.now) bytes.now }
{
    let mut unmatched = text;
    let mut left = bytes;
    while !unmatched.is_empty() {
        let (fewer, behind) = behind_run(unmatched, left)?;
        unmatched = fewer;
        left = behind;
    }
    Some(left)
}

// The bytes at the beginning that stand for themselves, compared at once, and the escape of the byte after them. What
// is left of both is given back.
fn behind_run<'a, 'b>(text: &'a [u8], bytes: &'b [u8]) -> Option<(&'a [u8], &'b [u8])>
    requires { 0 < length text.now }
    ensures left { option_and_then (λ p. left_behind (flat_map escaped p.0.now) p.1.now) result
        ≡ left_behind (flat_map escaped text.now) bytes.now }
    ensures shorter { IfSome result (λ p. length p.0.now < length text.now) }
{
    let (run, rest) = text.split_at(plain_len(text));
    let left = behind(run, bytes)?;
    match rest.split_first() {
        Some((byte, fewer)) => Some((fewer, behind_byte(*byte, left)?)),
        None => Some((rest, left)),
    }
}

fn behind_byte(byte: u8, bytes: &[u8]) -> Option<&[u8]>
    ensures { option_copied result ≡ left_behind (escaped byte) bytes.now }
{
    behind(written_byte(byte, &mut [0; 6]), bytes)
}

/// Behind the bytes as they are.
pub fn behind<'a>(word: &[u8], bytes: &'a [u8]) -> Option<&'a [u8]>
    ensures { option_copied result ≡ left_behind word.now bytes.now }
{
    bytes.strip_prefix(word)
}
