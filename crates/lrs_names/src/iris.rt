ghost use Rattle.std.specs.Prelude.{◌≡◌, IsTrue, IfOk, IfErr};
ghost use Rattle.std.specs.List.{list_all};
ghost use Rattle.std.specs.Str.{chars};
ghost use Rattle.lrs_json.specs.View.{view};
ghost use Rattle.lrs_names.specs.Iris.{is_iri, is_scheme, is_scheme_byte, is_control_or_space, is_iri_character, iri_faults};
ghost use Rattle.lrs_names.specs.Members.{is_string_that};
ghost use Rattle.lrs_names.specs.Rules.{least};

use crate::rules::unless;
use lrs_json::{Memory, Text, Tree};
use std::marker::Model;

/// An IRI (RFC 3987, section 2.2, within the profile of xAPI 1.0.3, part two, section 4.3): a scheme, a colon and at
/// least one character, without controls, spaces and the characters `"<>\^{|}` and the backquote. Contracts see it
/// as the bytes of its text, in whose order IRIs are.
#[derive(PartialEq, Eq, PartialOrd, Ord, Drop)]
pub struct Iri {
    text: Text,
}

impl Model for Iri {
    ghost use Rattle.std.specs.Prelude.{◌≡◌, List, ℕ, true};
    ghost use Rattle.lrs_names.specs.Iris.{is_iri};

    ghost Value = { List ℕ };

    ghost view = { λ iri. iri.text };

    ghost invariant = { λ iri. is_iri iri.text ≡ true };

    ghost inverse = { λ text. record { text = text } };
}

impl Iri {
    /// Whether the text is an IRI.
    pub fn is(text: &Text) -> bool
        ensures { result ≡ is_iri text.now }
    {
        is_iri(text.as_str())
    }

    /// Takes the text over, and hands it back if it is no IRI.
    pub fn read(text: Text) -> Result<Iri, Text>
        ensures iri { IfOk result (λ iri. (iri ≡ text) × IsTrue (is_iri text)) }
        ensures other { IfErr result (λ given. (given ≡ text) × (IsTrue (is_iri text) → ⊥)) }
    {
        if Iri::is(&text) {
            Ok(Iri { text })
        } else {
            Err(text)
        }
    }

    /// The text, lent.
    pub fn text(&self) -> &Text
        ensures lent { result.now ≡ self.now }
        ensures iri { IsTrue (is_iri self.now) }
    {
        &self.text
    }

    /// A copy of its own.
    pub fn copy(&self) -> Result<Iri, Memory>
        ensures { IfOk result (λ iri. iri ≡ self.now) }
    {
        Ok(Iri {
            text: self.text.clone()?,
        })
    }

    /// Gives the text back.
    pub fn into_text(self) -> Text
        ensures given { result ≡ self }
        ensures iri { IsTrue (is_iri self) }
    {
        let Iri { text } = self;
        text
    }
}

/// Rule 6, if the value is no string that is an IRI.
pub fn broken_iri(tree: &Tree) -> Option<u8>
    ensures { result ≡ least (iri_faults (view tree.now)) }
{
    unless(holds_iri(tree), 6)
}

/// Whether the tree is a string that is an IRI.
pub fn holds_iri(tree: &Tree) -> bool
    ensures { result ≡ is_string_that is_iri (view tree.now) }
{
    match tree {
        Tree::Words(text) => Iri::is(text),
        _ => false,
    }
}

#[tactic(auto, unfolding(crate::specs::Iris::is_iri))]
fn is_iri(text: &str) -> bool
    ensures { result ≡ is_iri text.now }
{
    let Some((scheme, rest)) = text.split_once(':') else {
        return false;
    };
    is_scheme(scheme.as_bytes()) && !rest.is_empty() && are_iri_characters(text)
}

fn is_scheme(bytes: &[u8]) -> bool
    ensures { result ≡ is_scheme bytes.now }
{
    match bytes {
        [first, rest @ ..] => first.is_ascii_alphabetic() && are_scheme_bytes(rest),
        [] => false,
    }
}

fn are_scheme_bytes(bytes: &[u8]) -> bool
    ensures { result ≡ list_all is_scheme_byte bytes.now }
{
    bytes.iter().all(is_scheme_byte)
}

fn are_iri_characters(text: &str) -> bool
    ensures { result ≡ list_all is_iri_character (chars text.now) }
{
    text.chars().all(is_iri_character)
}

fn is_scheme_byte(byte: &u8) -> bool
    ensures { result ≡ is_scheme_byte byte.now }
{
    byte.is_ascii_alphanumeric() || matches!(*byte, b'+' | b'-' | b'.')
}

fn is_iri_character(c: char) -> bool
    ensures { result ≡ is_iri_character c }
{
    !(is_control_or_space(c) || matches!(c, '"' | '<' | '>' | '\\' | '^' | '`' | '{' | '|' | '}'))
}

/// Whether the character is a control (Unicode's category Cc) or the space.
pub fn is_control_or_space(c: char) -> bool
    ensures { result ≡ is_control_or_space c }
{
    c.is_control() || c == ' '
}
