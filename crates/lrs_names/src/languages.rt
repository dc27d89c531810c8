ghost use Rattle.std.specs.Prelude.{◌≡◌, map};
ghost use Rattle.std.specs.Char.{is_ascii_alphabetic, is_ascii_alphanumeric};
ghost use Rattle.std.specs.List.{list_all, before_first, slice_split};
ghost use Rattle.lrs_json.specs.View.{view, member_view, members_of};
ghost use Rattle.lrs_names.specs.Languages.{is_subtag, is_hyphen, is_language_tag, are_in_languages, is_language_map, language_map_faults};
ghost use Rattle.lrs_names.specs.Rules.{least};

use crate::members::is_string;
use crate::rules::unless;
use lrs_json::{Member, Text, Tree};

/// A language tag (RFC 5646, within the profile of one to eight letters, then parts of a hyphen and one to eight
/// letters or digits).
pub struct LangTag;

impl LangTag {
    /// Whether the text is a language tag.
    pub fn is(text: &Text) -> bool
        ensures { result ≡ is_language_tag text.now }
    {
        is_language_tag(text.as_str())
    }
}

/// Rule 14, if the value is no language map.
pub fn broken_language_map(tree: &Tree) -> Option<u8>
    ensures { result ≡ least (language_map_faults (view tree.now)) }
{
    unless(is_language_map(tree), 14)
}

/// Whether the tree is an object whose names are language tags and whose values are strings (xAPI 1.0.3, part two,
/// section 4.2). The empty object is one.
pub fn is_language_map(tree: &Tree) -> bool
    ensures { result ≡ is_language_map (view tree.now) }
{
    match tree {
        Tree::Object(members) => are_in_languages(members.as_slice()),
        _ => false,
    }
}

fn are_in_languages(members: &[Member]) -> bool
    ensures { result ≡ are_in_languages (members_of (map member_view members.now)) }
{
    for member in members {
        if !LangTag::is(&member.name) || !is_string(&member.value) {
            return false;
        }
    }
    true
}

#[tactic(auto, unfolding(crate::specs::Languages::is_language_tag))]
fn is_language_tag(text: &str) -> bool
    ensures { result ≡ is_language_tag text.now }
{
    is_letters(first_part(text).as_bytes()) && are_parts(text.as_bytes())
}

// What stands before the first hyphen.
fn first_part(text: &str) -> &str
    ensures { result.now ≡ before_first is_hyphen text.now }
{
    match text.split_once('-') {
        Some((first, _)) => first,
        None => text,
    }
}

fn are_parts(text: &[u8]) -> bool
    ensures { result ≡ list_all (is_subtag is_ascii_alphanumeric) (slice_split is_hyphen text.now) }
{
    text.split(|byte| *byte == b'-').all(is_letters_or_digits)
}

fn is_letters(part: &[u8]) -> bool
    ensures { result ≡ is_subtag is_ascii_alphabetic part.now }
{
    0 < part.len() && part.len() <= 8 && are_letters(part)
}

fn are_letters(bytes: &[u8]) -> bool
    ensures { result ≡ list_all is_ascii_alphabetic bytes.now }
{
    bytes.iter().all(|byte| byte.is_ascii_alphabetic())
}

fn is_letters_or_digits(part: &[u8]) -> bool
    ensures { result ≡ is_subtag is_ascii_alphanumeric part.now }
{
    0 < part.len() && part.len() <= 8 && are_letters_or_digits(part)
}

fn are_letters_or_digits(bytes: &[u8]) -> bool
    ensures { result ≡ list_all is_ascii_alphanumeric bytes.now }
{
    bytes.iter().all(|byte| byte.is_ascii_alphanumeric())
}
