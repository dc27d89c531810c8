// What was said, session by session.
ghost use Rattle.std.specs.Prelude.{◌≡◌, [], ℕ, List, IsTrue, true, is_some, option_map, OnOk};
ghost use Rattle.std.specs.Map.{lookup};
ghost use Rattle.cmi5_running_sessions.specs.Maps.{is_empty_slot, is_nothing_said, kept_in, own_behind, taken_back};
ghost use Rattle.cmi5_running_sessions.specs.Maps.{ChangesAt, MakesAt};
ghost use Rattle.cmi5_running_sessions.specs.Kept.{is_same, nothing_said};
ghost use Rattle.cmi5_running_sessions.specs.Room.{needs_own};

use crate::OwnSaid;
use crate::told::session_of;
use cmi5_session::StoredStatement;
use lrs_json::Memory;
use lrs_names::Id;
use std::alloc::Global;
use std::collections::BTreeMap;
use std::marker::Model;

/// What the own statements of each session said, by its id.
#[derive(Drop)]
pub(crate) struct SaidBySession {
    map: BTreeMap<Id, OwnSaid>,
}

impl Model for SaidBySession {
    ghost use Rattle.std.specs.Prelude.{List, ℕ};
    ghost use Rattle.cmi5_running_sessions.specs.declared.own.OwnSaid.{OwnSaid as SpecSaid};

    ghost Value = { List (List ℕ × SpecSaid) };

    ghost view = { λ s. s.map.entries };
}

impl SaidBySession {
    pub(crate) fn new(alloc: Global) -> SaidBySession
        ensures { result ≡ [] }
    {
        SaidBySession {
            map: BTreeMap::new(alloc),
        }
    }

    /// What the session of that id said.
    pub(crate) fn get(&self, session: &Id) -> OwnSaid
        ensures { result ≡ kept_in nothing_said (lookup (is_same session.now) self.now) }
    {
        match self.map.get(session) {
            Some(said) => *said,
            None => OwnSaid::nothing(),
        }
    }

    // ---- slots

    /// Makes the slot that a statement needs.
    pub(crate) fn ready(&mut self, statement: &StoredStatement) -> Result<(), Memory>
        ensures made { MakesAt nothing_said (λ id. needs_own id statement.now) self.old self.new }
        ensures there { OnOk result ((id : List ℕ) → needs_own id statement.now ≡ true
            → IsTrue (is_some (lookup (is_same id) self.new))) }
    {
        match session_of(statement.authority()) {
            Some(session) => self.make(session),
            None => Ok(()),
        }
    }

    fn make(&mut self, session: Id) -> Result<(), Memory>
        ensures made { MakesAt nothing_said (λ id. is_same session id) self.old self.new }
        ensures there { OnOk result (IsTrue (is_some (lookup (is_same session) self.new))) }
    {
        if self.map.contains_key(&session) {
            return Ok(());
        }
        // Written out in full: the borrow checker has to see the type of the moments here.
        let said = OwnSaid {
            began: None,
            ended: false,
            last: None,
        };
        self.map.insert(session, said)?;
        Ok(())
    }

    /// Takes the slot back that a statement needs, if nothing is kept there.
    pub(crate) fn release(&mut self, statement: &StoredStatement)
        ensures { ChangesAt (λ id. needs_own id statement.now) (taken_back is_nothing_said) self.old self.new }
    {
        if let Some(session) = session_of(statement.authority()) {
            self.take_back(&session);
        }
    }

    fn take_back(&mut self, session: &Id)
        ensures { ChangesAt (λ id. is_same session.now id) (taken_back is_nothing_said) self.old self.new }
    {
        if self.is_empty_at(session) {
            self.map.remove(session);
        }
    }

    fn is_empty_at(&self, session: &Id) -> bool
        ensures { result ≡ is_empty_slot is_nothing_said (lookup (is_same session.now) self.now) }
    {
        match self.map.get(session) {
            Some(said) => said.is_nothing(),
            None => false,
        }
    }

    // ---- statements

    /// Takes a statement in that has a slot. It takes no memory.
    pub(crate) fn install(&mut self, statement: &StoredStatement)
        requires { (id : List ℕ) → needs_own id statement.now ≡ true
            → IsTrue (is_some (lookup (is_same id) self.old)) }
        ensures { ChangesAt (λ id. needs_own id statement.now) (option_map (own_behind statement.now))
            self.old self.new }
    {
        if let Some(session) = session_of(statement.authority()) {
            self.hear(&session, statement);
        }
    }

    fn hear(&mut self, session: &Id, statement: &StoredStatement)
        requires { IsTrue (is_some (lookup (is_same session.now) self.old)) }
        ensures { ChangesAt (λ id. is_same session.now id) (option_map (own_behind statement.now))
            self.old self.new }
    {
        match self.map.get_mut(session) {
            Some(said) => said.hear(statement),
            None => {}
        }
    }
}
