// What is asked of a value by its kind.
ghost use Rattle.std.specs.Prelude.{◌≡◌, ◌↔◌, IsTrue, map};
ghost use Rattle.lrs_json.specs.View.{view, member_view, members_of, elements_of};
ghost use Rattle.lrs_names.specs.Rules.{least};
ghost use Rattle.xapi_values.specs.Shapes.{IsTimestamp, IsDuration, is_object, is_boolean, are_strings, is_string_array, is_uuid, is_timestamp, is_duration, is_version, are_iris, extension_faults};

use lrs_json::{Member, Tree};
use lrs_names::{Id, Iri, is_string, unless};
use lrs_time::{Duration, read_timestamp};

/// A JSON object, whatever it holds.
pub fn is_object(tree: &Tree) -> bool
    ensures { result ≡ is_object (view tree.now) }
{
    matches!(tree, Tree::Object(_))
}

/// A truth value: `true` or `false`.
pub fn is_boolean(tree: &Tree) -> bool
    ensures { result ≡ is_boolean (view tree.now) }
{
    matches!(tree, Tree::Bool(_))
}

/// An array of strings, as `correctResponsesPattern` is one (xAPI 1.0.3, part two, section 2.4.4.1).
pub fn is_string_array(tree: &Tree) -> bool
    ensures { result ≡ is_string_array (view tree.now) }
{
    match tree {
        Tree::List(items) => are_strings(items.as_slice()),
        _ => false,
    }
}

fn are_strings(items: &[Tree]) -> bool
    ensures { result ≡ are_strings (elements_of (map view items.now)) }
{
    for item in items {
        if !is_string(item) {
            return false;
        }
    }
    true
}

/// A UUID in its form of 36 characters, with letters of either case (RFC 4122, section 3).
pub fn is_uuid(tree: &Tree) -> bool
    ensures { result ≡ is_uuid (view tree.now) }
{
    match tree {
        Tree::Words(text) => Id::read(text.as_bytes()).is_some(),
        _ => false,
    }
}

/// A timestamp (xAPI 1.0.3, part two, section 4.5).
pub fn is_timestamp(tree: &Tree) -> bool
    ensures test { result ≡ is_timestamp (view tree.now) }
    ensures written { IsTrue result ↔ IsTimestamp (view tree.now) }
{
    match tree {
        Tree::Words(text) => read_timestamp(text.as_bytes()).is_ok(),
        _ => false,
    }
}

/// A duration (xAPI 1.0.3, part two, section 4.6).
pub fn is_duration(tree: &Tree) -> bool
    ensures test { result ≡ is_duration (view tree.now) }
    ensures written { IsTrue result ↔ IsDuration (view tree.now) }
{
    match tree {
        Tree::Words(text) => Duration::read(text.as_bytes()).is_some(),
        _ => false,
    }
}

/// A version that the store takes: one that begins with `1.0.` (xAPI 1.0.3, part two, section 2.4.10).
pub fn is_version(tree: &Tree) -> bool
    ensures { result ≡ is_version (view tree.now) }
{
    match tree {
        Tree::Words(text) => text.as_bytes().starts_with(b"1.0."),
        _ => false,
    }
}

/// The rule that the names of extensions break.
pub fn broken_extensions(tree: &Tree) -> Option<u8>
    ensures { result ≡ least (extension_faults (view tree.now)) }
{
    match tree {
        Tree::Object(members) => unless(are_iris(members.as_slice()), 6),
        _ => None,
    }
}

fn are_iris(members: &[Member]) -> bool
    ensures { result ≡ are_iris (members_of (map member_view members.now)) }
{
    for member in members {
        if !Iri::is(&member.name) {
            return false;
        }
    }
    true
}
