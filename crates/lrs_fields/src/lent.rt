//! How the fields of a write are lent, and written as the members of an object.
ghost use Rattle.std.specs.Prelude.{◌≡◌, ◌<◌, ◌^◌, ◌++◌, map, false, OnOk};
ghost use Rattle.std.specs.Fmt.{decimal};
ghost use Rattle.std.specs.List.{AllByRecursion};
ghost use Rattle.hex.specs.Hex.{IsBytes, encode_lower};
ghost use Rattle.lrs_fields.specs.Values.{HoldsValue, lent, members_for, value_json};
ghost use Rattle.lrs_json.specs.Json.{array, string};
ghost use Rattle.lrs_json.specs.Texts.{member_text};
ghost use Rattle.lrs_json.specs.View.{elements_of, members_of, view};
ghost use Rattle.lrs_json.specs.Written.{Extends, comma_if, elements_text, members_text, written};

use crate::agents::{put_actor, put_agent};
use hex::encode;
use itoa::Buffer;
use lrs_agents::{Agent, Ifi};
use lrs_json::appending::{put, put_comma, put_name, put_quoted, put_tree};
use lrs_json::{Items, Memory, Text, Tree, utf8_text};
use lrs_names::{Id, Iri};
use xapi_received::ReceivedText;

/// What a field holds, lent.
#[derive(Clone, Copy)]
pub enum Lent<'a> {
    Text(&'a Text),
    Id(&'a Id),
    Tree(&'a Tree),
    Trees(&'a Items<Tree>),
    /// A tree, copied from its text.
    Received(&'a ReceivedText),
    /// Trees, copied from their texts.
    AllReceived(&'a Items<ReceivedText>),
    Word(&'a str),
    Iri(&'a Iri),
    Agent(&'a Ifi),
    Bytes(&'a Items<u8>),
    Actor(&'a Agent),
    Number(u32),
}

/// Appends the fields as the members of an object, and the closing brace.
#[tactic(auto, using(lrs_json::proofs::Extending::extends_trans))]
pub fn put_fields(fields: &[(&str, Lent<'_>)], into: &mut Vec<u8>) -> Result<(), Memory>
    ensures ok { OnOk result (into.new.items ≡ into.old.items ++ members_text false
        (members_of (members_for (map (λ field. (field.0.now, lent field.1)) fields.now)))) }
    ensures kept { Extends into.old.items into.new.items }
    ensures holds { OnOk result (AllByRecursion (λ field. HoldsValue (lent field.1)) fields.now) }
{
    for (i, field) in fields.iter().enumerate() {
        put_field(i > 0, field.0, &field.1, into)?;
    }
    put(b"}", into)
}

#[tactic(auto, using(lrs_json::proofs::Extending::extends_trans))]
fn put_field(later: bool, name: &str, value: &Lent<'_>, into: &mut Vec<u8>) -> Result<(), Memory>
    ensures ok { OnOk result (into.new.items ≡ into.old.items
        ++ member_text later name.now (value_json (lent value.now))) }
    ensures kept { Extends into.old.items into.new.items }
    ensures holds { OnOk result (HoldsValue (lent value.now)) }
{
    put_name(later, name, into)?;
    put_value(value, into)
}

/// Appends the value, or a part of it if memory runs out in the middle.
#[tactic(auto, using(lrs_json::proofs::Extending::extends_trans))]
pub(crate) fn put_value(value: &Lent<'_>, into: &mut Vec<u8>) -> Result<(), Memory>
    ensures ok { OnOk result (into.new.items ≡ into.old.items ++ written (value_json (lent value.now))) }
    ensures kept { Extends into.old.items into.new.items }
    ensures holds { OnOk result (HoldsValue (lent value.now)) }
{
    match value {
        Lent::Text(text) => put_quoted(text.as_str(), into),
        Lent::Id(id) => put_quoted(utf8_text(&id.text()), into),
        Lent::Tree(tree) => put_tree(tree, into),
        Lent::Trees(trees) => put_array(trees.as_slice(), into),
        Lent::Received(text) => text.put(into),
        Lent::AllReceived(texts) => put_text_array(texts.as_slice(), into),
        Lent::Word(word) => put_quoted(word, into),
        Lent::Iri(iri) => put_quoted(iri.text().as_str(), into),
        Lent::Agent(agent) => put_agent(agent, into),
        Lent::Bytes(bytes) => put_digits(bytes.as_slice(), into),
        Lent::Actor(actor) => put_actor(actor, into),
        Lent::Number(number) => put_number(*number, into),
    }
}

// Bytes as lower-case hexadecimal digits.
#[tactic(auto, using(lrs_json::proofs::Extending::extends_trans))]
fn put_digits(bytes: &[u8], into: &mut Vec<u8>) -> Result<(), Memory>
    ensures ok { OnOk result (into.new.items ≡ into.old.items ++ written (string (encode_lower bytes.now))) }
    ensures kept { Extends into.old.items into.new.items }
    ensures holds { IsBytes bytes.now }
{
    let digits = encode(*into.allocator(), bytes)?;
    put_quoted(digits.as_str(), into)
}

// A number in decimal digits alone.
fn put_number(number: u32, into: &mut Vec<u8>) -> Result<(), Memory>
    ensures ok { OnOk result (into.new.items ≡ into.old.items ++ decimal number) }
    ensures kept { Extends into.old.items into.new.items }
    ensures holds { number < 2 ^ 32 }
{
    let mut buffer = Buffer::new();
    put(buffer.format(number).as_bytes(), into)
}

#[tactic(auto, using(lrs_json::proofs::Extending::extends_trans))]
fn put_array(trees: &[Tree], into: &mut Vec<u8>) -> Result<(), Memory>
    ensures ok { OnOk result (into.new.items
        ≡ into.old.items ++ written (array (elements_of (map view trees.now)))) }
    ensures kept { Extends into.old.items into.new.items }
{
    put(b"[", into)?;
    put_trees(trees, into)
}

// The items of an array and the closing bracket.
#[tactic(auto, using(lrs_json::proofs::Extending::extends_trans))]
fn put_trees(trees: &[Tree], into: &mut Vec<u8>) -> Result<(), Memory>
    ensures ok { OnOk result (into.new.items ≡ into.old.items
        ++ elements_text false (elements_of (map view trees.now))) }
    ensures kept { Extends into.old.items into.new.items }
{
    for (i, tree) in trees.iter().enumerate() {
        put_item(i > 0, tree, into)?;
    }
    put(b"]", into)
}

#[tactic(auto, using(lrs_json::proofs::Extending::extends_trans))]
fn put_item(later: bool, tree: &Tree, into: &mut Vec<u8>) -> Result<(), Memory>
    ensures ok { OnOk result (into.new.items ≡ into.old.items ++ (comma_if later ++ written (view tree.now))) }
    ensures kept { Extends into.old.items into.new.items }
{
    put_comma(later, into)?;
    put_tree(tree, into)
}

// The same array, copied from the texts of its items.
#[tactic(auto, using(lrs_json::proofs::Extending::extends_trans))]
fn put_text_array(texts: &[ReceivedText], into: &mut Vec<u8>) -> Result<(), Memory>
    ensures ok { OnOk result (into.new.items
        ≡ into.old.items ++ written (array (elements_of (map view texts.now)))) }
    ensures kept { Extends into.old.items into.new.items }
{
    put(b"[", into)?;
    put_texts(texts, into)
}

// The items of an array and the closing bracket.
#[tactic(auto, using(lrs_json::proofs::Extending::extends_trans))]
fn put_texts(texts: &[ReceivedText], into: &mut Vec<u8>) -> Result<(), Memory>
    ensures ok { OnOk result (into.new.items ≡ into.old.items
        ++ elements_text false (elements_of (map view texts.now))) }
    ensures kept { Extends into.old.items into.new.items }
{
    for (i, text) in texts.iter().enumerate() {
        put_text_item(i > 0, text, into)?;
    }
    put(b"]", into)
}

#[tactic(auto, using(lrs_json::proofs::Extending::extends_trans))]
fn put_text_item(later: bool, text: &ReceivedText, into: &mut Vec<u8>) -> Result<(), Memory>
    ensures ok { OnOk result (into.new.items ≡ into.old.items ++ (comma_if later ++ written (view text.now))) }
    ensures kept { Extends into.old.items into.new.items }
{
    put_comma(later, into)?;
    text.put(into)
}
