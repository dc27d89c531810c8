// Parts of a text that are written forms.
ghost use Rattle.std.specs.Prelude.{◌≡◌, ◌<◌, ◌≤◌, ◌∷◌, ◌++◌, [], ℕ, List, length, IsTrue, IfSome, None, MatchOption, OnOk};
ghost use Rattle.std.specs.List.{list_all};
ghost use Rattle.std.specs.Str.{bytes_eq};
ghost use Rattle.lrs_json.specs.Find.{find, find_member};
ghost use Rattle.lrs_json.specs.Json.{Json, array, element, member, no_elements, no_members, object, string};
ghost use Rattle.lrs_json.specs.Parts.{count_items, count_members, items_in, members_in, text_in};
ghost use Rattle.lrs_json.specs.Spellable.{IsSpellable};
ghost use Rattle.lrs_json.specs.Written.{Extends, is_plain, quoted, written};
ghost use Rattle.lrs_json_slices.specs.Single.{ItemsFrom-prop, MembersFrom-prop, TextFrom-prop, WrittenFrom-prop};
ghost use Rattle.lrs_json_slices.specs.Spelled.{ItemsFrom, MembersFrom, TextFrom, WrittenFrom};

use crate::scanning::behind_first;
use crate::splitting::{begins_with, split_item, split_member};
use lrs_json::Memory;
use lrs_json::appending::put;
use std::marker::Model;

/// A value, held as the bytes of its written form.
#[derive(Drop)]
pub struct Written<'a> {
    bytes: &'a [u8],
    ghost spelled: { WrittenFrom bytes.now } by { WrittenFrom-prop bytes.now },
}

impl<'a> Model for Written<'a> {
    ghost use Rattle.lrs_json.specs.Json.{Json};
    ghost use Rattle.lrs_json_slices.specs.Codes.{json_code};

    ghost Value = { Json };

    ghost coded = { json_code };

    ghost view = { λ w. w.spelled.0 };
}

/// The items of an array that are left, held as the bytes from the first one on.
#[derive(Drop)]
pub struct WrittenItems<'a> {
    bytes: &'a [u8],
    ghost spelled: { ItemsFrom bytes.now } by { ItemsFrom-prop bytes.now },
}

impl<'a> Model for WrittenItems<'a> {
    ghost use Rattle.lrs_json.specs.Json.{Elements};
    ghost use Rattle.lrs_json_slices.specs.Codes.{elements_code};

    ghost Value = { Elements };

    ghost coded = { elements_code };

    ghost view = { λ w. w.spelled.0 };
}

/// The members of an object that are left, held as the bytes from the first one on.
#[derive(Drop)]
pub struct WrittenMembers<'a> {
    bytes: &'a [u8],
    ghost spelled: { MembersFrom bytes.now } by { MembersFrom-prop bytes.now },
}

impl<'a> Model for WrittenMembers<'a> {
    ghost use Rattle.lrs_json.specs.Json.{Members};
    ghost use Rattle.lrs_json_slices.specs.Codes.{members_code};

    ghost Value = { Members };

    ghost coded = { members_code };

    ghost view = { λ w. w.spelled.0 };
}

/// A text, held as the bytes of a string that stands for it.
#[derive(Drop)]
pub struct WrittenText<'a> {
    bytes: &'a [u8],
    ghost spelled: { TextFrom bytes.now } by { TextFrom-prop bytes.now },
}

impl<'a> Model for WrittenText<'a> {
    ghost use Rattle.std.specs.Prelude.{List, ℕ};

    ghost Value = { List ℕ };

    ghost view = { λ w. w.spelled.0 };
}

/// A member of an object.
#[derive(Drop)]
pub struct WrittenMember<'a> {
    pub name: WrittenText<'a>,
    pub value: Written<'a>,
}

impl<'a> Written<'a> {
    /// The value of which these bytes are the written form.
    pub fn of(bytes: &'a [u8]) -> Written<'a>
        requires { WrittenFrom bytes.now }
        ensures { (j : Json) → IsSpellable j → bytes.now ≡ written j → result ≡ j }
    {
        Written { bytes }
    }

    /// The bytes of the written form.
    pub fn bytes(&self) -> &'a [u8]
        ensures { result.now ≡ written self.now }
    {
        self.bytes
    }

    /// Appends the written form. What stood before stays if memory runs out in the middle.
    pub fn put(&self, into: &mut Vec<u8>) -> Result<(), Memory>
        ensures ok { OnOk result (into.new.items ≡ into.old.items ++ written self.now) }
        ensures kept { Extends into.old.items into.new.items }
    {
        put(self.bytes, into)
    }

    /// The text of a string.
    pub fn text(&self) -> Option<WrittenText<'a>>
        ensures { MatchOption result (text_in self.now ≡ None) (λ text. self.now ≡ string text) }
    {
        let bytes = self.bytes;
        if begins_with(b'"', bytes) {
            Some(WrittenText { bytes })
        } else {
            None
        }
    }

    /// The items of an array.
    pub fn items(&self) -> Option<WrittenItems<'a>>
        ensures { MatchOption result (items_in self.now ≡ None) (λ items. self.now ≡ array items) }
    {
        let whole = self.bytes;
        if begins_with(b'[', whole) {
            let bytes = behind_first(whole);
            Some(WrittenItems { bytes })
        } else {
            None
        }
    }

    /// The members of an object.
    pub fn members(&self) -> Option<WrittenMembers<'a>>
        ensures { MatchOption result (members_in self.now ≡ None) (λ members. self.now ≡ object members) }
    {
        let whole = self.bytes;
        if begins_with(b'{', whole) {
            let bytes = behind_first(whole);
            Some(WrittenMembers { bytes })
        } else {
            None
        }
    }

    /// The value of the first member of that name, if it is an object. The name has no byte that is escaped.
    pub fn get(&self, name: &str) -> Option<Written<'a>>
        requires { IsTrue (list_all is_plain name.now) }
        ensures { result ≡ find name.now self.now }
    {
        match self.members() {
            Some(members) => find_member(members, name),
            None => None,
        }
    }
}

// The value of the first member of that name.
fn find_member<'a>(members: WrittenMembers<'a>, name: &str) -> Option<Written<'a>>
    requires { IsTrue (list_all is_plain name.now) }
    ensures { result ≡ find_member name.now members.entry }
{
    let mut left = members;
    while let Some(part) = left.next() {
        if part.name.is(name) {
            let WrittenMember { name: _, value } = part;
            return Some(value);
        }
    }
    None
}

impl<'a> WrittenItems<'a> {
    /// The next item.
    pub fn next(&mut self) -> Option<Written<'a>>
        ensures next { MatchOption result ((self.old ≡ no_elements) × (self.new ≡ no_elements))
            (λ j. self.old ≡ element j self.new) }
        ensures fewer { IfSome result (λ _. count_items self.new < count_items self.old) }
    {
        if begins_with(b']', self.bytes) {
            return None;
        }
        let (bytes, left) = split_item(self.bytes);
        self.bytes = left;
        Some(Written { bytes })
    }
}

impl<'a> WrittenMembers<'a> {
    /// The next member.
    pub fn next(&mut self) -> Option<WrittenMember<'a>>
        ensures next { MatchOption result ((self.old ≡ no_members) × (self.new ≡ no_members))
            (λ m. self.old ≡ member m.name m.value self.new) }
        ensures fewer { IfSome result (λ _. count_members self.new < count_members self.old) }
    {
        if begins_with(b'}', self.bytes) {
            return None;
        }
        let (name, value, left) = split_member(self.bytes);
        self.bytes = left;
        Some(WrittenMember {
            name: WrittenText { bytes: name },
            value: Written { bytes: value },
        })
    }
}

impl WrittenText<'_> {
    /// Appends the string that stands for the text. What stood before stays if memory runs out in the middle.
    pub fn put(&self, into: &mut Vec<u8>) -> Result<(), Memory>
        ensures ok { OnOk result (into.new.items ≡ into.old.items ++ quoted self.now) }
        ensures kept { Extends into.old.items into.new.items }
    {
        put(self.bytes, into)
    }

    /// Whether it is that text, which has no byte that is escaped.
    pub fn is(&self, text: &str) -> bool
        requires { IsTrue (list_all is_plain text.now) }
        ensures same { result ≡ bytes_eq self.now text.now }
        ensures turned { result ≡ bytes_eq text.now self.now }
    {
        inside(self.bytes) == text.as_bytes()
    }
}

// What stands between the quotes.
fn inside(bytes: &[u8]) -> &[u8]
    requires { 2 ≤ length bytes.now }
    ensures { (text : List ℕ) → bytes.now ≡ 34 ∷ (text ++ 34 ∷ []) → result.now ≡ text }
{
    &bytes[1..bytes.len() - 1]
}
