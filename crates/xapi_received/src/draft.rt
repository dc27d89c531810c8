// A received text while it is written.
ghost use Rattle.std.specs.Prelude.{◌≡◌, ◌++◌, [], length, IsUtf8, IfOk, OnOk};
ghost use Rattle.lrs_json.specs.Json.{array, element, no_elements};
ghost use Rattle.lrs_json.specs.Spellable.{IsSpellable};
ghost use Rattle.lrs_json.specs.Texts.{member_text, name_text};
ghost use Rattle.lrs_json.specs.View.{view};
ghost use Rattle.lrs_json.specs.Written.{written};
ghost use Rattle.xapi_received.specs.Marking.{AddsText, Marks};
ghost use Rattle.xapi_received.specs.Excerpts.{listed};
ghost use Rattle.xapi_received.specs.Received.{IsWithin, bracket_text, bytes_at};

use crate::excerpts::Excerpts;
use crate::marks::{Bracket, ByteSpan, Excerpt};
use lrs_json::appending::{put, put_name, put_tree};
use lrs_json::{Member, Memory, Tree};
use std::alloc::Global;
use std::mem;

/// The received text as far as it is written, with what is shown of it by then: the excerpts, and behind them all of
/// the text from an offset on. So what is written is shown, and an excerpt ends only where something is left out or a
/// bracket comes in.
#[derive(Drop)]
pub struct Draft {
    pub text: Vec<u8>,
    pub excerpts: Excerpts,
    /// Where the excerpt begins that goes on.
    pub from: u32,
}

// Most statements are shorter. What isn't needed is given back at the end.
const TEXT_ROOM: usize = 1024;

impl Draft {
    pub fn new(alloc: Global) -> Result<Draft, Memory>
        ensures text { IfOk result (λ draft. draft.text.items ≡ []) }
        ensures excerpts { IfOk result (λ draft. listed draft.excerpts ≡ []) }
        ensures from { IfOk result (λ draft. draft.from ≡ 0) }
    {
        let text = Vec::with_capacity(alloc, TEXT_ROOM)?;
        Ok(Draft {
            text,
            excerpts: Excerpts::Empty,
            from: 0,
        })
    }

    /// Writes bytes, which are shown.
    pub fn put(&mut self, bytes: &[u8]) -> Result<(), Memory>
        ensures { OnOk result (AddsText bytes.now bytes.now self.old self.new) }
    {
        put(bytes, &mut self.text)
    }

    /// Writes the name of a member, which is shown.
    pub fn put_name(&mut self, later: bool, name: &str) -> Result<(), Memory>
        ensures { OnOk result (AddsText (name_text later name.now) (name_text later name.now) self.old self.new) }
    {
        put_name(later, name, &mut self.text)
    }

    /// Writes a value, which is shown as it is.
    pub fn put_tree(&mut self, tree: &Tree) -> Result<(), Memory>
        ensures { OnOk result (Marks (view tree.now) (view tree.now) self.old self.new) }
    {
        put_tree(tree, &mut self.text)
    }

    /// Writes a value, which is shown as the only item of an array.
    pub fn put_in_brackets(&mut self, tree: &Tree) -> Result<(), Memory>
        ensures { OnOk result (Marks (view tree.now) (array (element (view tree.now) no_elements)) self.old self.new) }
    {
        self.cut(Bracket::Opening)?;
        self.put_tree(tree)?;
        self.cut(Bracket::Closing)
    }

    /// Writes bytes that aren't shown. The next excerpt begins behind them.
    pub fn leave(&mut self, bytes: &[u8]) -> Result<(), Memory>
        ensures adds { OnOk result (AddsText bytes.now [] self.old self.new) }
        ensures ends { OnOk result (self.new.from ≡ length self.new.text.items) }
    {
        self.pause()?;
        put(bytes, &mut self.text)?;
        self.skip()
    }

    /// Writes a member that isn't shown, and tells where its value stands. The next excerpt begins behind it.
    pub fn leave_member(&mut self, later: bool, part: &Member) -> Result<ByteSpan, Memory>
        ensures adds { OnOk result (AddsText (member_text later part.now.name (view part.now.value)) []
            self.old self.new) }
        ensures within { IfOk result (λ span. IsWithin (length self.new.text.items) span) }
        ensures value { IfOk result (λ span. bytes_at self.new.text.items span ≡ written (view part.now.value)) }
        ensures name { OnOk result (IsUtf8 part.now.name) }
        ensures spellable { OnOk result (IsSpellable (view part.now.value)) }
    {
        self.pause()?;
        let span = put_spanned(later, part, &mut self.text)?;
        self.skip()?;
        Ok(span)
    }

    /// Ends the excerpt at the end of the text, unless nothing is in it.
    pub fn pause(&mut self) -> Result<(), Memory>
        ensures adds { OnOk result (AddsText [] [] self.old self.new) }
        ensures ends { OnOk result (self.new.from ≡ length self.new.text.items) }
    {
        let start = self.from;
        let end = end_of(self.text.as_slice())?;
        if start == end {
            Ok(())
        } else {
            self.cut(Bracket::Absent)
        }
    }

    // Ends the excerpt at the end of the text.
    fn cut(&mut self, bracket: Bracket) -> Result<(), Memory>
        ensures adds { OnOk result (AddsText [] (bracket_text bracket) self.old self.new) }
        ensures ends { OnOk result (self.new.from ≡ length self.new.text.items) }
    {
        let start = self.from;
        let end = end_of(self.text.as_slice())?;
        let span = ByteSpan { start, end };
        let before = mem::replace(&mut self.excerpts, Excerpts::Empty);
        let excerpts = before.pushed(*self.text.allocator(), Excerpt { span, bracket })?;
        self.excerpts = excerpts;
        self.from = end;
        Ok(())
    }

    // The next excerpt begins at the end of the text.
    fn skip(&mut self) -> Result<(), Memory>
        ensures text { self.new.text.items ≡ self.old.text.items }
        ensures excerpts { listed self.new.excerpts ≡ listed self.old.excerpts }
        ensures ends { OnOk result (self.new.from ≡ length self.new.text.items) }
    {
        let end = end_of(self.text.as_slice())?;
        self.from = end;
        Ok(())
    }

    /// Gives back the memory that isn't needed.
    pub fn shrink(&mut self)
        ensures text { self.new.text.items ≡ self.old.text.items }
        ensures excerpts { listed self.new.excerpts ≡ listed self.old.excerpts }
        ensures from { self.new.from ≡ self.old.from }
    {
        self.text.shrink_to_fit();
        let excerpts = mem::replace(&mut self.excerpts, Excerpts::Empty);
        self.excerpts = excerpts.shrunk();
    }
}

// Appends a member, and tells where its value stands.
fn put_spanned(later: bool, part: &Member, text: &mut Vec<u8>) -> Result<ByteSpan, Memory>
    ensures text { OnOk result (text.new.items ≡ text.old.items
        ++ member_text later part.now.name (view part.now.value)) }
    ensures within { IfOk result (λ span. IsWithin (length text.new.items) span) }
    ensures value { IfOk result (λ span. bytes_at text.new.items span ≡ written (view part.now.value)) }
    ensures name { OnOk result (IsUtf8 part.now.name) }
    ensures spellable { OnOk result (IsSpellable (view part.now.value)) }
{
    let name = part.name.as_str();
    put_name(later, name, text)?;
    let start = end_of(text.as_slice())?;
    put_tree(&part.value, text)?;
    let end = end_of(text.as_slice())?;
    Ok(ByteSpan { start, end })
}

// The offset behind a text. No text that is kept needs more than 32 bits for it.
fn end_of(text: &[u8]) -> Result<u32, Memory>
    ensures { IfOk result (λ end. end ≡ length text.now) }
{
    match u32::try_from(text.len()) {
        Ok(end) => Ok(end),
        Err(_) => Err(Memory),
    }
}
