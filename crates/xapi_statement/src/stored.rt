ghost use Rattle.std.specs.Prelude.{◌≡◌, IsTrue, IfOk};
ghost use Rattle.lrs_json.specs.View.{view};
ghost use Rattle.xapi_properties.specs.XapiRulesRules.{is_voiding};
ghost use Rattle.xapi_statement.specs.Shown.{shown_form};
ghost use Rattle.xapi_statement.specs.Statement.{is_statement, registration_of, target_of, verb_of};

use crate::{Authority, Format, Statement};
use lrs_json::{Memory, Tree};
use lrs_names::Id;
use lrs_time::Moment;
use std::alloc::Global;
use std::marker::Model;
use xapi_received::completed;
use xapi_reduced::reduced;

/// A statement as the store keeps it, with its tree: as it was received, under its id, with the moment at which it was
/// accepted and under whose authority it stands. In this form it is judged, compared and followed; from then on a
/// `HeldStatement` stands for it.
#[derive(Drop)]
pub struct StoredStatement {
    statement: Statement,
    id: Id,
    stored: Moment,
    authority: Authority,
}

impl Model for StoredStatement {
    ghost use Rattle.xapi_statement.specs.Stored.{StoredStatement as SpecStatement};
    ghost use Rattle.std.specs.Coded.{codes};
    ghost use Rattle.lrs_json.specs.contracts.tree.Tree as tree;

    ghost Value = { SpecStatement };

    ghost coded = { Prim.hlevel (codes, tree.the_row.coded) };

    ghost view = { λ c. record { received = c.statement.tree; id = c.id; stored = c.stored; authority = c.authority } };
}

impl Statement {
    /// The statement as the store keeps it. The tree is taken over as it is.
    pub fn complete(self, id: Id, stored: Moment, authority: Authority) -> StoredStatement
        ensures { result ≡ record { received = self.tree; id = id; stored = stored; authority = authority } }
    {
        StoredStatement {
            statement: self,
            id,
            stored,
            authority,
        }
    }
}

impl StoredStatement {
    /// The statement as it was received.
    pub fn statement(&self) -> &Statement
        ensures lent { result.now.tree ≡ self.now.received }
        ensures unbroken { IsTrue (is_statement (view self.now.received)) }
    {
        &self.statement
    }

    /// The tree that was received.
    pub fn received(&self) -> &Tree
        ensures { result.now ≡ self.now.received }
    {
        self.statement.received()
    }

    /// The id under which it is kept.
    pub fn id(&self) -> Id
        ensures { result ≡ self.now.id }
    {
        self.id
    }

    /// The moment at which it was accepted.
    pub fn stored(&self) -> Moment
        ensures { result ≡ self.now.stored }
    {
        self.stored
    }

    /// Under whose authority it stands: the caller who brought it.
    pub fn authority(&self) -> &Authority
        ensures { result.now ≡ self.now.authority }
    {
        &self.authority
    }

    /// Whether its verb is voided (xAPI 1.0.3, part two, section 2.3.2).
    pub fn is_voiding(&self) -> bool
        ensures { result ≡ is_voiding (view self.now.received) }
    {
        self.statement.is_voiding()
    }

    /// The statement to which its object refers.
    pub fn target(&self) -> Option<Id>
        ensures { result ≡ target_of (view self.now.received) }
    {
        self.statement.target()
    }

    /// The id of its verb, an IRI.
    pub fn verb(&self) -> &str
        ensures { result.now ≡ verb_of (view self.now.received) }
    {
        self.statement.verb()
    }

    /// The registration that its context names, a UUID.
    pub fn registration(&self) -> Option<Id>
        ensures { result ≡ registration_of (view self.now.received) }
    {
        self.statement.registration()
    }

    /// A tree of its own, in that form.
    pub fn tree(&self, alloc: Global, format: Format) -> Result<Tree, Memory>
        ensures { IfOk result (λ tree. view tree ≡ shown_form format self.now) }
    {
        let whole = completed(
            alloc,
            self.received(),
            &self.id,
            self.stored,
            &self.authority,
        )?;
        match format {
            Format::Exact => Ok(whole),
            Format::Ids => reduced(whole),
        }
    }
}
