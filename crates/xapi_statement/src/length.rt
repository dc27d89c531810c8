// How long a statement's written form is.
ghost use Rattle.std.specs.Prelude.{◌≡◌, ◌+◌, ◌<◌, ◌≤◌, false, length, IfSome, MatchOption};
ghost use Rattle.lrs_json.specs.View.{view};
ghost use Rattle.lrs_json.specs.Written.{written_tree, list_text, object_text, text_of_member, quoted, escaped, comma_if};
ghost use Rattle.xapi_statement.specs.Statement.{is_too_long};

use lrs_json::{Member, Text, Tree};

/// The longest written form of a statement that is kept, in bytes.
pub const LONGEST_STATEMENT: usize = 262_144;

/// Whether the statement's written form has more bytes than are kept.
#[tactic(auto, unfolding(crate::specs::Statement::is_too_long))]
pub fn is_too_long(statement: &Tree) -> bool
    ensures { result ≡ is_too_long (view statement.now) }
{
    if least_room_behind(statement, LONGEST_STATEMENT).is_some() {
        return false;
    }
    room_behind(statement, LONGEST_STATEMENT).is_none()
}

// ---- by the sizes of its texts

// Room that is left at least after the tree's written form. The bytes of its texts aren't looked at. Nothing, if their
// number doesn't tell.
#[cycle(least)]
fn least_room_behind(tree: &Tree, room: usize) -> Option<usize>
    ensures { IfSome result (λ left. left + length (written_tree tree.now) ≤ room) }
{
    match tree {
        Tree::Null | Tree::Bool(_) => room.checked_sub(5),
        Tree::Number(spelling) => room.checked_sub(spelling.as_str().len()),
        Tree::Words(text) => least_room_behind_text(text, room),
        Tree::List(items) => least_room_behind_items(items.as_slice(), room),
        Tree::Object(members) => least_room_behind_members(members.as_slice(), room),
    }
}

// The brackets, and the items with a comma each.
#[cycle(least)]
fn least_room_behind_items(items: &[Tree], room: usize) -> Option<usize>
    ensures { IfSome result (λ left. left + 1 + length (list_text false items.now) ≤ room) }
{
    let mut left = room.checked_sub(2)?;
    for item in items {
        left = least_room_behind(item, left.checked_sub(1)?)?;
    }
    Some(left)
}

#[cycle(least)]
fn least_room_behind_members(members: &[Member], room: usize) -> Option<usize>
    ensures { IfSome result (λ left. left + 1 + length (object_text false members.now) ≤ room) }
{
    let mut left = room.checked_sub(2)?;
    for member in members {
        left = least_room_behind_member(member, left.checked_sub(1)?)?;
    }
    Some(left)
}

#[cycle(least)]
fn least_room_behind_member(member: &Member, room: usize) -> Option<usize>
    ensures { IfSome result (λ left. left + length (text_of_member member.now) ≤ room) }
{
    let left = least_room_behind_text(&member.name, room)?.checked_sub(1)?;
    least_room_behind(&member.value, left)
}

// A byte is written as six at most.
fn least_room_behind_text(text: &Text, room: usize) -> Option<usize>
    ensures { IfSome result (λ left. left + length (quoted text.now) ≤ room) }
{
    let most = text.as_bytes().len().checked_mul(6)?;
    let left = room.checked_sub(2)?;
    if left < most {
        return None;
    }
    Some(left - most)
}

// ---- byte by byte

// What is left of the room after the tree's written form.
#[cycle(room)]
fn room_behind(tree: &Tree, room: usize) -> Option<usize>
    ensures { MatchOption result (room < length (written_tree tree.now))
        (λ left. left + length (written_tree tree.now) ≡ room) }
{
    match tree {
        Tree::Null => room.checked_sub(4),
        Tree::Bool(true) => room.checked_sub(4),
        Tree::Bool(false) => room.checked_sub(5),
        Tree::Number(spelling) => room.checked_sub(spelling.as_str().len()),
        Tree::Words(text) => room_behind_text(text, room),
        Tree::List(items) => room_behind_items(items.as_slice(), room.checked_sub(1)?),
        Tree::Object(members) => room_behind_members(members.as_slice(), room.checked_sub(1)?),
    }
}

// The items and the closing bracket.
#[cycle(room)]
fn room_behind_items(items: &[Tree], room: usize) -> Option<usize>
    ensures { MatchOption result (room < length (list_text false items.now))
        (λ left. left + length (list_text false items.now) ≡ room) }
{
    let mut left = room;
    for (i, item) in items.iter().enumerate() {
        left = room_behind(item, room_behind_comma(i > 0, left)?)?;
    }
    left.checked_sub(1)
}

#[cycle(room)]
fn room_behind_members(members: &[Member], room: usize) -> Option<usize>
    ensures { MatchOption result (room < length (object_text false members.now))
        (λ left. left + length (object_text false members.now) ≡ room) }
{
    let mut left = room;
    for (i, member) in members.iter().enumerate() {
        left = room_behind_member(member, room_behind_comma(i > 0, left)?)?;
    }
    left.checked_sub(1)
}

#[cycle(room)]
fn room_behind_member(member: &Member, room: usize) -> Option<usize>
    ensures { MatchOption result (room < length (text_of_member member.now))
        (λ left. left + length (text_of_member member.now) ≡ room) }
{
    let left = room_behind_text(&member.name, room)?.checked_sub(1)?;
    room_behind(&member.value, left)
}

fn room_behind_comma(later: bool, room: usize) -> Option<usize>
    ensures { MatchOption result (room < length (comma_if later)) (λ left. left + length (comma_if later) ≡ room) }
{
    if later {
        room.checked_sub(1)
    } else {
        Some(room)
    }
}

fn room_behind_text(text: &Text, room: usize) -> Option<usize>
    ensures { MatchOption result (room < length (quoted text.now)) (λ left. left + length (quoted text.now) ≡ room) }
{
    let mut left = room.checked_sub(2)?;
    for byte in text.as_bytes() {
        left = left.checked_sub(written_length(*byte))?;
    }
    Some(left)
}

// How many bytes stand for a byte of a text in its written form.
#[tactic(auto, unfolding(lrs_json::specs::Written::escaped))]
fn written_length(byte: u8) -> usize
    ensures { result ≡ length (escaped byte) }
{
    match byte {
        b'"' | b'\\' | 8 | b'\t' | b'\n' | 12 | b'\r' => 2,
        0..32 => 6,
        _ => 1,
    }
}
