ghost use Rattle.std.specs.Prelude.{◌≡◌, ◌&&◌, [], ◌∷◌, IfOk, OnOk, false, is_some};
ghost use Rattle.std.specs.List.Sorted.{IsStrictlySortedBy};
ghost use Rattle.std.specs.Cmp.Lexicographic.{slice_cmp};
ghost use Rattle.std.specs.Ordering.{nat_cmp};
ghost use Rattle.std.specs.Option.{option_copied, option_map_or};
ghost use Rattle.xapi_docs.specs.Changes.{documents_after};
ghost use Rattle.lrs_register.specs.Slots.{HasSlot, KeepsOthers, KeepsSlots, MakesSlots, TakesSlotsBack, is_empty_at};
ghost use Rattle.xapi_docs.specs.Docs.{AreHeld, HasRoomForDocuments, documents_in, is_written};
ghost use Rattle.xapi_docs.specs.Documents.{document_under, ids_in, is_later, keys_in, with_document, without_documents};
ghost use Rattle.xapi_keys.specs.Keys.{is_same_key, is_state, key_cmp};

use crate::{Document, DocumentsChange};
use lrs_agents::Ifi;
use lrs_json::{Items, Memory, Text};
use lrs_names::{Id, Iri};
use lrs_time::Instant;
use std::alloc::Global;
use std::collections::BTreeMap;
use std::marker::Model;
use xapi_keys::{StateKey, is_of, is_state};

/// The documents, found by key. A key's slot is made before its document comes.
#[derive(Drop)]
pub struct Docs {
    map: BTreeMap<StateKey, Option<Document>>,
}

impl Model for Docs {
    ghost use Rattle.std.specs.List.Sorted.{IsStrictlySortedBy};
    ghost use Rattle.std.specs.Map.{keys_of};
    ghost use Rattle.xapi_docs.specs.Docs.{Slots};
    ghost use Rattle.xapi_keys.specs.Keys.{key_cmp};

    ghost Value = { Slots };

    ghost view = { λ d. d.map.entries };

    ghost invariant = { λ d. IsStrictlySortedBy key_cmp (keys_of d.map.entries) };
}

impl Docs {
    pub fn new(alloc: Global) -> Docs
        ensures { documents_in result ≡ [] }
    {
        Docs {
            map: BTreeMap::new(alloc),
        }
    }

    /// The document under a key.
    pub fn get(&self, key: &StateKey) -> Option<&Document>
        ensures { option_copied result ≡ document_under key.now (documents_in self.now) }
    {
        match self.map.get(key) {
            Some(slot) => slot.as_ref(),
            None => None,
        }
    }

    /// The state ids of an activity, an agent and a registration, in the order of their bytes: of the documents that
    /// were written later than that, where an instant is given.
    pub fn ids(
        &self,
        activity: &Iri,
        agent: &Ifi,
        registration: &Option<Id>,
        since: Option<Instant>,
    ) -> Result<Vec<Text>, Memory>
        ensures is { IfOk result (λ ids. ids.items
            ≡ ids_in activity.now agent.now registration.now since (documents_in self.now)) }
        ensures order { IfOk result (λ ids. IsStrictlySortedBy (slice_cmp nat_cmp) ids.items) }
    {
        let alloc = activity.text().allocator();
        let mut ids = Vec::new(alloc);
        let first = first_key(alloc, activity, agent, registration)?;
        for (key, slot) in self.map.range(first..) {
            if !is_of(key, activity, agent, registration) {
                return Ok(ids);
            }
            if is_listed(slot, since) {
                ids.push(key.state.clone()?)?;
            }
        }
        Ok(ids)
    }

    /// The keys of the documents that a deletion names: all of an activity, an agent and a registration, or the one of
    /// a state id.
    pub fn keys(
        &self,
        activity: &Iri,
        agent: &Ifi,
        registration: &Option<Id>,
        state: &Option<Text>,
    ) -> Result<Items<StateKey>, Memory>
        ensures { IfOk result (λ keys. keys
            ≡ keys_in activity.now agent.now registration.now state.now (documents_in self.now)) }
    {
        let alloc = activity.text().allocator();
        let mut keys = Items::new(alloc);
        let first = first_key(alloc, activity, agent, registration)?;
        for (key, slot) in self.map.range(first..) {
            if !is_of(key, activity, agent, registration) {
                return Ok(keys);
            }
            if is_named(key, slot, state) {
                keys.push(key.copy()?)?;
            }
        }
        Ok(keys)
    }

    /// Makes room for a document under a key.
    pub fn ready(&mut self, key: &StateKey) -> Result<(), Memory>
        ensures held { documents_in self.new ≡ documents_in self.old }
        ensures made { MakesSlots key_cmp (λ k. is_same_key key.now k) self.old self.new }
        ensures ready { OnOk result (HasSlot key_cmp self.new key.now) }
        ensures kept { KeepsSlots key_cmp self.old self.new }
    {
        if !self.map.contains_key(key) {
            let before = self.map.insert(key.copy()?, None)?;
            drop(before);
        }
        Ok(())
    }

    /// Takes back the slot that was made for a key, where it is empty.
    pub fn release(&mut self, key: &StateKey)
        ensures held { documents_in self.new ≡ documents_in self.old }
        ensures back { TakesSlotsBack key_cmp (λ k. is_same_key key.now k) self.old self.new }
        ensures filled { AreHeld (λ k. is_same_key key.now k) self.new }
    {
        if self.is_empty_at(key) {
            let slot = self.map.remove(key);
            drop(slot);
        }
    }

    fn is_empty_at(&self, key: &StateKey) -> bool
        ensures { result ≡ is_empty_at key_cmp self.now key.now }
    {
        match self.map.get(key) {
            Some(slot) => slot.is_none(),
            None => false,
        }
    }

    /// Takes a document in for which there is room, in place of the one under its key. It takes no memory.
    pub fn install(&mut self, key: StateKey, document: Document)
        requires { HasSlot key_cmp self.old key }
        ensures held { documents_in self.new ≡ with_document key document (documents_in self.old) }
        ensures slots { KeepsSlots key_cmp self.old self.new }
    {
        self.put(&key, document);
        drop(key);
    }

    fn put(&mut self, key: &StateKey, document: Document)
        requires { HasSlot key_cmp self.old key.now }
        ensures held { documents_in self.new ≡ with_document key.now document (documents_in self.old) }
        ensures slots { KeepsSlots key_cmp self.old self.new }
    {
        let Some(slot) = self.map.get_mut(key) else {
            drop(document);
            return;
        };
        let before = slot.replace(document);
        drop(before);
    }

    /// Lets the document under a key go, where there is one. It takes no memory.
    pub fn remove(&mut self, key: &StateKey)
        ensures gone { documents_in self.new ≡ without_documents (key.now ∷ []) (documents_in self.old) }
        ensures slots { KeepsOthers key_cmp (λ k. is_same_key key.now k) self.old self.new }
    {
        let slot = self.map.remove(key);
        drop(slot);
    }

    /// Makes room for a change.
    pub fn ready_change(&mut self, change: &DocumentsChange) -> Result<(), Memory>
        ensures held { documents_in self.new ≡ documents_in self.old }
        ensures made { MakesSlots key_cmp (is_written change.now) self.old self.new }
        ensures room { OnOk result (HasRoomForDocuments self.new change.now) }
    {
        match change {
            DocumentsChange::Written { key, document: _ } => self.ready(key),
            DocumentsChange::Unchanged | DocumentsChange::Dropped(_) => Ok(()),
        }
    }

    /// Takes back the slot that was made for a change that doesn't come.
    pub fn release_change(&mut self, change: &DocumentsChange)
        ensures held { documents_in self.new ≡ documents_in self.old }
        ensures back { TakesSlotsBack key_cmp (is_written change.now) self.old self.new }
        ensures filled { AreHeld (is_written change.now) self.new }
    {
        match change {
            DocumentsChange::Written { key, document: _ } => self.release(key),
            DocumentsChange::Unchanged | DocumentsChange::Dropped(_) => {}
        }
    }

    /// Takes a change in for which there is room. It takes no memory.
    pub fn install_change(&mut self, change: DocumentsChange)
        requires { HasRoomForDocuments self.old change }
        ensures { documents_in self.new ≡ documents_after (documents_in self.old) change }
    {
        match change {
            DocumentsChange::Unchanged => {}
            DocumentsChange::Written { key, document } => self.install(key, document),
            DocumentsChange::Dropped(keys) => self.remove_each(keys.as_slice()),
        }
    }

    fn remove_each(&mut self, keys: &[StateKey])
        ensures { documents_in self.new ≡ without_documents keys.now (documents_in self.old) }
    {
        for key in keys {
            self.remove(key);
        }
    }
}

// The least key of an activity, an agent and a registration.
fn first_key(
    alloc: Global,
    activity: &Iri,
    agent: &Ifi,
    registration: &Option<Id>,
) -> Result<StateKey, Memory>
    ensures { IfOk result (λ key. key ≡ record {
      activity = activity.now;
      agent = agent.now;
      registration = registration.now;
      state = [];
    }) }
{
    Ok(StateKey {
        registration: *registration,
        activity: activity.copy()?,
        state: Text::of(alloc, "")?,
        agent: agent.copy()?,
    })
}

// Whether a slot holds a document that was written later, where an instant is given.
fn is_listed(slot: &Option<Document>, since: Option<Instant>) -> bool
    ensures { result ≡ option_map_or (is_later since) slot.now false }
{
    match (slot, since) {
        (None, _) => false,
        (Some(_), None) => true,
        (Some(document), Some(first)) => first < document.moment.instant(),
    }
}

// Whether a slot holds a document of that state id, where one is given.
fn is_named(key: &StateKey, slot: &Option<Document>, state: &Option<Text>) -> bool
    ensures { result ≡ (is_some slot.now && is_state state.now key.now) }
{
    slot.is_some() && is_state(key, state)
}
