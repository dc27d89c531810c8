// A statement as the store holds it in memory.
ghost use Rattle.std.specs.Prelude.{◌≡◌, ◌↔◌, ◌++◌, IsTrue, IfOk, OnOk, OnErr};
ghost use Rattle.lrs_json.specs.View.{view};
ghost use Rattle.lrs_json.specs.Written.{Extends};
ghost use Rattle.xapi_properties.specs.XapiRulesRules.{is_voiding};
ghost use Rattle.xapi_statement.specs.Held.{IsTextOf};
ghost use Rattle.xapi_statement.specs.Shown.{shown_text};
ghost use Rattle.xapi_statement.specs.Statement.{is_statement, registration_of, target_of};

use crate::{Authority, Format, SharedAuthority, Statement, StoredStatement};
use lrs_json::{Memory, Tree};
use lrs_names::Id;
use lrs_time::Moment;
use std::alloc::Global;
use std::marker::Model;
use xapi_received::ReceivedText;
use xapi_reduced::put_reduced;

/// A statement as the store holds it in memory, seen as the `StoredStatement` that it was made of. Of what was received
/// it keeps the written text, since a tree takes several times as much room, and most of what is held is only shown.
/// Beside the text stands what is asked of many statements at a time: to which one it refers, its registration, and
/// whether it voids. For all else its tree is made anew, which takes memory.
#[derive(Drop)]
pub struct HeldStatement {
    received: ReceivedText,
    id: Id,
    stored: Moment,
    authority: SharedAuthority,
    target: Option<Id>,
    registration: Option<Id>,
    is_voiding: bool,
}

impl Model for HeldStatement {
    ghost use Rattle.xapi_statement.specs.Stored.{StoredStatement as SpecStatement};
    ghost use Rattle.std.specs.Coded.{codes};
    ghost use Rattle.lrs_json.specs.contracts.tree.Tree as tree;
    ghost use Rattle.xapi_statement.specs.Held.{StandsBeside};

    ghost Value = { SpecStatement };

    ghost coded = { Prim.hlevel (codes, tree.the_row.coded) };

    ghost view = { λ h. record { received = h.received; id = h.id; stored = h.stored; authority = h.authority } };

    ghost invariant = { λ h. StandsBeside h.received h.target h.registration h.is_voiding };
}

impl HeldStatement {
    /// Writes the text of a statement, and puts beside it what is asked of many. The statement stays with the caller.
    pub fn of(alloc: Global, statement: &StoredStatement) -> Result<HeldStatement, Memory>
        ensures { IfOk result (λ h. h ≡ statement.now) }
    {
        let authority = statement.authority().copy()?;
        let shared = SharedAuthority::of(alloc, authority)?;
        HeldStatement::under(alloc, shared, None, statement)
    }

    /// The same. Its authority is given, since others may share it, and its text if that was written before.
    pub fn under(
        alloc: Global,
        authority: SharedAuthority,
        text: Option<ReceivedText>,
        statement: &StoredStatement,
    ) -> Result<HeldStatement, Memory>
        requires authority { authority ≡ statement.now.authority }
        requires text { IsTextOf text statement.now.received }
        ensures { IfOk result (λ h. h ≡ statement.now) }
    {
        let whole = statement.statement();
        let received = text_of(alloc, text, whole.received())?;
        Ok(HeldStatement::with_text(received, authority, statement))
    }

    // The statement with that text and that authority.
    fn with_text(
        received: ReceivedText,
        authority: SharedAuthority,
        statement: &StoredStatement,
    ) -> HeldStatement
        requires received { received ≡ statement.now.received }
        requires authority { authority ≡ statement.now.authority }
        requires unbroken { IsTrue (is_statement (view statement.now.received)) }
        ensures { result ≡ statement.now }
    {
        let id = statement.id();
        let stored = statement.stored();
        let target = statement.target();
        let registration = statement.registration();
        let is_voiding = statement.is_voiding();
        HeldStatement {
            received,
            id,
            stored,
            authority,
            target,
            registration,
            is_voiding,
        }
    }

    /// The id under which it is kept.
    pub fn id(&self) -> Id
        ensures { result ≡ self.now.id }
    {
        self.id
    }

    /// The moment at which it was accepted.
    pub fn stored(&self) -> Moment
        ensures { result ≡ self.now.stored }
    {
        self.stored
    }

    /// Under whose authority it stands: the caller who brought it.
    pub fn authority(&self) -> &Authority
        ensures { result.now ≡ self.now.authority }
    {
        self.authority.get()
    }

    /// The statement to which its object refers.
    pub fn target(&self) -> Option<Id>
        ensures { result ≡ target_of (view self.now.received) }
    {
        self.target
    }

    /// The registration that its context names, a UUID.
    pub fn registration(&self) -> Option<Id>
        ensures { result ≡ registration_of (view self.now.received) }
    {
        self.registration
    }

    /// Whether its verb is voided (xAPI 1.0.3, part two, section 2.3.2).
    pub fn is_voiding(&self) -> bool
        ensures { result ≡ is_voiding (view self.now.received) }
    {
        self.is_voiding
    }

    /// Whether this tree was received. Takes no memory.
    pub fn is_received_as(&self, tree: &Tree) -> bool
        ensures { IsTrue result ↔ (tree.now ≡ self.now.received) }
    {
        self.received.is_of(tree)
    }

    /// The tree that was received, made anew.
    pub fn received(&self, alloc: Global) -> Result<Tree, Memory>
        ensures { IfOk result (λ t. t ≡ self.now.received) }
    {
        self.received.tree(alloc)
    }

    /// The statement with its tree, made anew.
    pub fn whole(&self, alloc: Global) -> Result<StoredStatement, Memory>
        ensures { IfOk result (λ s. s ≡ self.now) }
    {
        let authority = self.authority.get().copy()?;
        let tree = self.received.tree(alloc)?;
        Ok(Statement::of(tree).complete(self.id, self.stored, authority))
    }

    /// Appends the written form of its tree in that form, or nothing if memory runs out. No tree is made.
    pub fn write(&self, format: Format, into: &mut Vec<u8>) -> Result<(), Memory>
        ensures ok { OnOk result (into.new.items ≡ into.old.items ++ shown_text format self.now) }
        ensures err { OnErr result (into.new.items ≡ into.old.items) }
    {
        let length = into.len();
        let written = self.put_shown(format, into);
        if written.is_err() {
            into.truncate(length);
        }
        written
    }

    // What stood before stays if memory runs out in the middle.
    fn put_shown(&self, format: Format, into: &mut Vec<u8>) -> Result<(), Memory>
        ensures ok { OnOk result (into.new.items ≡ into.old.items ++ shown_text format self.now) }
        ensures kept { Extends into.old.items into.new.items }
    {
        match format {
            Format::Exact => self.put_exact(into),
            Format::Ids => self.put_reduced(into),
        }
    }

    fn put_exact(&self, into: &mut Vec<u8>) -> Result<(), Memory>
        ensures ok { OnOk result (into.new.items ≡ into.old.items ++ shown_text Format.Exact self.now) }
        ensures kept { Extends into.old.items into.new.items }
    {
        let authority = self.authority.written();
        self.received
            .put_completed(&self.id, self.stored, authority, into)
    }

    fn put_reduced(&self, into: &mut Vec<u8>) -> Result<(), Memory>
        ensures ok { OnOk result (into.new.items ≡ into.old.items ++ shown_text Format.Ids self.now) }
        ensures kept { Extends into.old.items into.new.items }
    {
        let received = self.received.written();
        let authority = self.authority.written();
        put_reduced(&received, &self.id, self.stored, authority, into)
    }
}

// The text of a tree: the one that was written before, else it is written now.
fn text_of(
    alloc: Global,
    text: Option<ReceivedText>,
    received: &Tree,
) -> Result<ReceivedText, Memory>
    requires { IsTextOf text received.now }
    ensures { IfOk result (λ text. text ≡ received.now) }
{
    match text {
        Some(text) => Ok(text),
        None => ReceivedText::of(alloc, received),
    }
}
