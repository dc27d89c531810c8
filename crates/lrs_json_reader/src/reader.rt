ghost use Rattle.std.specs.Prelude.{◌≡◌, ◌≢◌, ◌<◌, ℕ, List, [], ◌∷◌, OnOk, IfOk, map, Some, length};
ghost use Rattle.lrs_json.specs.View.{member_view};
ghost use Rattle.lrs_json_reader.specs.Flaws.{earlier, earliest};
ghost use Rattle.lrs_json_reader.specs.Located.{number};
ghost use Rattle.lrs_json_reader.specs.Reading.{no_flaws, noted, ReadsWord, ReadsString, ReadsNumber, ReadsValue, ReadsMember, repeated_among};

use crate::cursor::{Cursor, Stop};
use crate::naming::{FEW_MEMBERS, is_named};
use lrs_decimal::is_in_range;
use lrs_json::{Items, Member, Memory, Number, Text, Tree};
use std::alloc::Global;
use std::collections::BTreeSet;

/// The earliest repeated name and the earliest number out of range, each by the bytes that are left from it on.
#[derive(Clone, Copy, Debug, PartialEq, Eq)]
pub struct Flaws {
    pub repeated: Option<usize>,
    pub out_of_range: Option<usize>,
}

// The earlier offset has more bytes left.
fn earlier(known: Option<usize>, left: usize) -> Option<usize>
    ensures { result ≡ earlier known (Some left) }
{
    match known {
        Some(other) => Some(other.max(left)),
        None => Some(left),
    }
}

/// Reads a value, and notes the flaws in it that are none of the grammar.
#[derive(Drop)]
pub struct Reader<'a> {
    pub cursor: Cursor<'a>,
    pub flaws: Flaws,
}

impl<'a> Reader<'a> {
    pub fn new(alloc: Global, bytes: &'a [u8]) -> Reader<'a>
        ensures cursor { result.cursor ≡ bytes.now }
        ensures flaws { result.flaws ≡ no_flaws }
    {
        let cursor = Cursor::new(alloc, bytes);
        let flaws = Flaws {
            repeated: None,
            out_of_range: None,
        };
        Reader { cursor, flaws }
    }
}

impl Reader<'_> {
    fn literal(&mut self, word: &[u8], tree: Tree) -> Result<Tree, Stop>
        requires { 0 < length word.now }
        ensures { ReadsWord word.now tree self.old result self.new }
    {
        self.cursor.word(word)?;
        Ok(tree)
    }

    fn string(&mut self) -> Result<Tree, Stop>
        ensures { ReadsString self.old result self.new }
    {
        Ok(Tree::Words(self.cursor.quoted()?))
    }

    fn number(&mut self) -> Result<Tree, Stop>
        ensures { ReadsNumber self.old result self.new }
    {
        let left = self.cursor.len();
        let spelling = self.cursor.number()?;
        self.note_number(left, &spelling);
        Ok(Tree::Number(Number::of(spelling)))
    }

    fn note_number(&mut self, left: usize, spelling: &Text)
        ensures cursor { self.new.cursor ≡ self.old.cursor }
        ensures flaws { self.new.flaws ≡ noted self.old.flaws (number left spelling.now) }
    {
        if !is_in_range(spelling.as_bytes()) {
            self.flaws.out_of_range = earlier(self.flaws.out_of_range, left);
        }
    }

    // A value that holds no others.
    fn leaf(&mut self) -> Result<Tree, Stop>
        requires no_list { (rest : List ℕ) → self.old.cursor ≢ 91 ∷ rest }
        requires no_object { (rest : List ℕ) → self.old.cursor ≢ 123 ∷ rest }
        ensures { ReadsValue self.old result self.new }
    {
        let Some(first) = self.cursor.first() else {
            return Err(Stop::Bad);
        };
        match first {
            b'n' => self.literal(b"null", Tree::Null),
            b't' => self.literal(b"true", Tree::Bool(true)),
            b'f' => self.literal(b"false", Tree::Bool(false)),
            b'"' => self.string(),
            _ => self.number(),
        }
    }
}

impl Reader<'_> {
    /// The offsets of the members of the objects that it stands in are kept on a stack, so that no object has a list of
    /// its own.
    #[cycle(reader)]
    pub fn value(&mut self, lefts: &mut Vec<usize>) -> Result<Tree, Stop>
        ensures reads { ReadsValue self.old result self.new }
        ensures kept { OnOk result (lefts.new.items ≡ lefts.old.items) }
    {
        match self.cursor.first() {
            Some(b'[') => self.list(lefts),
            Some(b'{') => self.object(lefts),
            _ => self.leaf(),
        }
    }

    #[cycle(reader)]
    fn list(&mut self, lefts: &mut Vec<usize>) -> Result<Tree, Stop>
        requires { (rest : List ℕ) × (self.old.cursor ≡ 91 ∷ rest) }
        ensures reads { ReadsValue self.old result self.new }
        ensures kept { OnOk result (lefts.new.items ≡ lefts.old.items) }
    {
        self.cursor.advance(1);
        let mut items = Items::new(self.cursor.allocator());
        while self.cursor.goes_on(!items.is_empty(), b']')? {
            items.push(self.value(lefts)?)?;
        }
        Ok(Tree::List(items))
    }

    #[cycle(reader)]
    fn object(&mut self, lefts: &mut Vec<usize>) -> Result<Tree, Stop>
        requires { (rest : List ℕ) × (self.old.cursor ≡ 123 ∷ rest) }
        ensures reads { ReadsValue self.old result self.new }
        ensures kept { OnOk result (lefts.new.items ≡ lefts.old.items) }
    {
        self.cursor.advance(1);
        let base = lefts.len();
        let mut members = Items::new(self.cursor.allocator());
        while self.cursor.goes_on(!members.is_empty(), b'}')? {
            lefts.push(self.cursor.len())?;
            members.push(self.member(lefts)?)?;
        }
        self.note_repeated(members.as_slice(), &lefts[base..])?;
        lefts.truncate(base);
        Ok(Tree::Object(members))
    }

    #[cycle(reader)]
    fn member(&mut self, lefts: &mut Vec<usize>) -> Result<Member, Stop>
        ensures reads { ReadsMember self.old result self.new }
        ensures kept { OnOk result (lefts.new.items ≡ lefts.old.items) }
    {
        let name = self.cursor.quoted()?;
        self.cursor.skip_spaces();
        self.cursor.word(b":")?;
        self.cursor.skip_spaces();
        let value = self.value(lefts)?;
        Ok(Member { name, value })
    }

    // Notes the names that equal an earlier one.
    fn note_repeated(&mut self, members: &[Member], lefts: &[usize]) -> Result<(), Memory>
        ensures cursor { self.new.cursor ≡ self.old.cursor }
        ensures repeated { OnOk result (self.new.flaws.repeated ≡ earlier self.old.flaws.repeated
            (earliest (repeated_among [] (map (λ m. (member_view m).0) members.now) lefts.now))) }
        ensures out_of_range { self.new.flaws.out_of_range ≡ self.old.flaws.out_of_range }
    {
        if let Some(left) = earliest_repeated(self.cursor.allocator(), members, lefts)? {
            self.flaws.repeated = earlier(self.flaws.repeated, left);
        }
        Ok(())
    }
}

// Of the names that equal an earlier one, the offset of the first.
fn earliest_repeated(
    alloc: Global,
    members: &[Member],
    lefts: &[usize],
) -> Result<Option<usize>, Memory>
    ensures { IfOk result (λ r. r ≡ earliest (repeated_among [] (map (λ m. (member_view m).0) members.now) lefts.now)) }
{
    if members.len() <= FEW_MEMBERS {
        Ok(earliest_of_few(members, lefts))
    } else {
        earliest_of_many(alloc, members, lefts)
    }
}

fn earliest_of_few(members: &[Member], lefts: &[usize]) -> Option<usize>
    ensures { result ≡ earliest (repeated_among [] (map (λ m. (member_view m).0) members.now) lefts.now) }
{
    let mut found = None;
    let mut before = 0;
    for (member, left) in members.iter().zip(lefts) {
        let again = is_named(&members[..before], member.name.as_str());
        before += 1;
        if again {
            found = earlier(found, *left);
        }
    }
    found
}

fn earliest_of_many(
    alloc: Global,
    members: &[Member],
    lefts: &[usize],
) -> Result<Option<usize>, Memory>
    ensures { IfOk result (λ r. r ≡ earliest (repeated_among [] (map (λ m. (member_view m).0) members.now) lefts.now)) }
{
    let mut found = None;
    let mut names = BTreeSet::new(alloc);
    for (member, left) in members.iter().zip(lefts) {
        if !names.insert(member.name.as_str())? {
            found = earlier(found, *left);
        }
    }
    Ok(found)
}
