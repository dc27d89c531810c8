ghost use Rattle.std.specs.Prelude.{◌≡◌};
ghost use Rattle.lrs_state.specs.State.{changes_no_learning, changes_nothing, no_change};

use crate::{
    Acceptance, CoursesChange, EditionsChange, Founding, KeysChange, LaunchesChange,
    MadeSessionsChange, ProvidersChange, RegistrationsChange, SessionsChange, TokensChange,
};
use lrs_json::Items;
use lrs_time::Moment;
use std::alloc::Global;
use xapi_docs::DocumentsChange;
use xapi_statement::StoredStatement;

/// What an entry changes, with a field for each part; its moment; what is said to its caller beyond that it is kept.
#[derive(Drop)]
pub struct Effect {
    pub founding: Option<Founding>,
    pub providers: ProvidersChange,
    pub statements: Items<StoredStatement>,
    pub documents: DocumentsChange,
    pub editions: EditionsChange,
    pub courses: CoursesChange,
    pub registrations: RegistrationsChange,
    pub launches: LaunchesChange,
    pub sessions: SessionsChange,
    pub made_sessions: MadeSessionsChange,
    pub keys: KeysChange,
    pub tokens: TokensChange,
    pub moment: Moment,
    pub acceptance: Acceptance,
}

impl Effect {
    /// The effect of an entry of this moment that changes no part.
    pub fn no_change(alloc: Global, moment: Moment) -> Effect
        ensures { result ≡ no_change moment }
    {
        Effect {
            founding: None,
            providers: ProvidersChange::none(),
            statements: Items::new(alloc),
            documents: DocumentsChange::Unchanged,
            editions: EditionsChange::none(),
            courses: CoursesChange::none(),
            registrations: RegistrationsChange::none(),
            launches: LaunchesChange::none(),
            sessions: SessionsChange::none(alloc),
            made_sessions: MadeSessionsChange::none(),
            keys: KeysChange::none(),
            tokens: TokensChange::none(),
            moment,
            acceptance: Acceptance::Plain,
        }
    }

    /// Whether no part is changed.
    pub fn changes_nothing(&self) -> bool
        ensures { result ≡ changes_nothing self.now }
    {
        self.founding.is_none()
            && !self.providers.changes()
            && !self.documents.changes()
            && self.statements.is_empty()
            && self.changes_no_learning()
    }

    // Whether nothing is changed of courses and of their learners.
    fn changes_no_learning(&self) -> bool
        ensures { result ≡ changes_no_learning self.now }
    {
        !self.editions.changes()
            && !self.courses.changes()
            && !self.registrations.changes()
            && !self.launches.changes()
            && !self.sessions.changes()
            && !self.made_sessions.changes()
            && !self.keys.changes()
            && !self.tokens.changes()
    }

    /// Drops it. Crates above call this in place of `drop`, so that what drops it is proved here alone.
    pub fn discard(self) {
        drop(self);
    }
}
