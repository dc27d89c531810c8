// A list that is found by key.
ghost use Rattle.std.specs.Prelude.{◌≡◌, ◌≤◌, ◌+◌, ◌<◌, [], ◌∷◌, ◌++◌, length, slice_get, slice_set, get_or, find, IfOk, OnOk};
ghost use Rattle.std.specs.Option.{option_copied};
ghost use Rattle.std.specs.BTreeMap.{is_at};
ghost use Rattle.lrs_register.specs.Slots.{KeepsSlots, MakesSlots, TakesSlotsBack};
ghost use Rattle.lrs_register.specs.Changes.{with_change, with_replaced, HasRoomForChange};
ghost use Rattle.lrs_register.specs.Register.{is_key_of, index_under, with_first, with_new, HasRoomFor, HasRoomForNew};

use crate::{Change, Slots};
use std::alloc::{AllocError, Global};
use std::marker::Model;

/// What is found by a key of its own.
pub trait Keyed<K> {
    ghost key: { Self → K };

    fn key(&self) -> &K
        ensures { result.now ≡ key self.now };

    /// A second copy of the key, under which its slot is made.
    fn key_copy(&self) -> Result<K, AllocError>
        ensures { IfOk result (λ copy. copy ≡ key self.now) };
}

/// Items in the order in which they came, found by key: of equal keys the first counts.
#[derive(Drop)]
pub struct Register<K: Ord + Drop, T: Keyed<K> + Drop> {
    slots: Slots<K>,
    held: Vec<T>,
}

impl<K: Ord + Drop, T: Keyed<K> + Drop> Model for Register<K, T> {
    ghost use Rattle.std.specs.Prelude.{vec_len, vec_capacity, ◌-◌};
    ghost use Rattle.lrs_register.specs.Register.{Registered, IsIndexed};

    ghost Value = { Registered K T };

    ghost view = { λ r. record {
      held = r.held.items;
      slots = r.slots;
      spare = vec_capacity r.held - vec_len
          r.held;
    } };

    ghost invariant = { λ r. IsIndexed K.cmp T.key r.slots r.held.items };
}

impl<K: Ord + Drop, T: Keyed<K> + Drop> Register<K, T> {
    pub fn new(alloc: Global) -> Register<K, T>
        ensures { result.held ≡ [] }
    {
        Register {
            slots: Slots::new(alloc),
            held: Vec::new(alloc),
        }
    }

    /// How many items there are.
    pub fn len(&self) -> usize
        ensures { result ≡ length self.now.held }
    {
        self.held.len()
    }

    /// The index of the first item under a key.
    pub fn index_of(&self, key: &K) -> Option<usize>
        ensures { result ≡ index_under (λ k. is_at (K.cmp k)) T.key key.now self.now.held }
    {
        self.slots.get(key)
    }

    /// The first item under a key.
    pub fn find(&self, key: &K) -> Option<&T>
        ensures { option_copied result ≡ find (λ x. is_at (K.cmp (T.key x)) key.now) self.now.held }
    {
        match self.index_of(key) {
            Some(index) => self.get(index),
            None => None,
        }
    }

    /// The item at an index.
    pub fn get(&self, index: usize) -> Option<&T>
        ensures { option_copied result ≡ slice_get self.now.held index }
    {
        self.held.get(index)
    }

    /// Makes room for an item.
    pub fn ready(&mut self, item: &T) -> Result<(), AllocError>
        ensures held { self.new.held ≡ self.old.held }
        ensures room { OnOk result (HasRoomFor K.cmp T.key self.new item.now) }
        ensures made { MakesSlots K.cmp (λ q. is_at (K.cmp (T.key item.now)) q) self.old.slots self.new.slots }
    {
        self.held.reserve(1)?;
        self.slots.make(item.key_copy()?)
    }

    /// Takes back the slot that was made for an item, where none came.
    pub fn release(&mut self, item: &T)
        ensures held { self.new.held ≡ self.old.held }
        ensures back { TakesSlotsBack K.cmp (λ q. is_at (K.cmp (T.key item.now)) q)
            self.old.slots self.new.slots }
    {
        self.slots.release(item.key());
    }

    /// Takes an item in for which there is room. It takes no memory.
    pub fn install(&mut self, item: T)
        requires { HasRoomFor K.cmp T.key self.old item }
        ensures held { self.new.held ≡ self.old.held ++ item ∷ [] }
        ensures spare { self.new.spare + 1 ≡ self.old.spare }
        ensures kept { KeepsSlots K.cmp self.old.slots self.new.slots }
    {
        self.slots.fill(item.key(), self.held.len());
        self.held.push_reserved(item);
    }

    /// Makes room for a change.
    pub fn ready_change(&mut self, change: &Change<T>) -> Result<(), AllocError>
        ensures held { self.new.held ≡ self.old.held }
        ensures room { OnOk result (HasRoomForChange K.cmp T.key self.new change.now) }
        ensures made { MakesSlots K.cmp (λ q. is_key_of K.cmp T.key change.now.new q)
            self.old.slots self.new.slots }
    {
        match &change.new {
            Some(item) => self.ready(item),
            None => Ok(()),
        }
    }

    /// Takes back the slot that was made for a change that didn't come.
    pub fn release_change(&mut self, change: &Change<T>)
        ensures held { self.new.held ≡ self.old.held }
        ensures back { TakesSlotsBack K.cmp (λ q. is_key_of K.cmp T.key change.now.new q)
            self.old.slots self.new.slots }
    {
        if let Some(item) = &change.new {
            self.release(item);
        }
    }

    /// Takes a change in for which there is room. It takes no memory.
    pub fn install_change(&mut self, change: Change<T>)
        requires { HasRoomForChange K.cmp T.key self.old change }
        ensures { self.new.held
            ≡ with_change (λ x item. is_at (K.cmp (T.key x)) (T.key item)) self.old.held change }
    {
        let Change { new, replaced } = change;
        self.install_new(new);
        self.install_replaced(replaced);
    }

    fn install_new(&mut self, item: Option<T>)
        requires { HasRoomForNew K.cmp T.key self.old item }
        ensures { self.new.held ≡ with_new self.old.held item }
    {
        if let Some(item) = item {
            self.install(item);
        }
    }

    fn install_replaced(&mut self, item: Option<T>)
        ensures { self.new.held
            ≡ with_replaced (λ x item. is_at (K.cmp (T.key x)) (T.key item)) self.old.held item }
    {
        if let Some(item) = item {
            self.replace_first(item);
        }
    }

    /// Puts an item in place of one with its key. It takes no memory.
    pub fn replace(&mut self, index: usize, item: T)
        requires within { index < length self.old.held }
        requires same { (q : K) →
            is_at (K.cmp (T.key item)) q ≡ is_at (K.cmp (T.key (get_or self.old.held index item))) q }
        ensures held { self.new.held ≡ slice_set self.old.held index item }
        ensures spare { self.new.spare ≡ self.old.spare }
        ensures slots { self.new.slots ≡ self.old.slots }
    {
        self.held[index] = item;
    }

    /// Puts an item in place of the first with its key, if there is one. It takes no memory.
    pub fn replace_first(&mut self, item: T)
        ensures held { self.new.held ≡ with_first (λ x. is_at (K.cmp (T.key x)) (T.key item)) item self.old.held }
        ensures spare { self.new.spare ≡ self.old.spare }
        ensures slots { self.new.slots ≡ self.old.slots }
    {
        if let Some(index) = self.index_of(item.key()) {
            self.replace(index, item);
        }
    }
}
