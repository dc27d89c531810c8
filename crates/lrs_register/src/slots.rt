// Slots by key, made ahead.
ghost use Rattle.std.specs.Prelude.{◌≡◌, [], OnOk};
ghost use Rattle.std.specs.BTreeMap.{is_at};
ghost use Rattle.lrs_register.specs.Slots.{is_empty_at, index_of, AddsOnly, FillsSlot, HasSlot, KeepsSlots};
ghost use Rattle.lrs_register.specs.Slots.{SameSlots, TakesSlotsBack};

use std::alloc::{AllocError, Global};
use std::collections::BTreeMap;
use std::marker::Model;

/// A map from keys to indices in a list. A key's slot is made before its index is known, and filled once the item is
/// there.
#[derive(Drop)]
pub struct Slots<K: Ord + Drop> {
    map: BTreeMap<K, Option<usize>>,
}

impl<K: Ord + Drop> Model for Slots<K> {
    ghost use Rattle.std.specs.Prelude.{List, ℕ, Option};

    ghost Value = { List (K × Option ℕ) };

    ghost view = { λ p. p.map.entries };
}

impl<K: Ord + Drop> Slots<K> {
    pub fn new(alloc: Global) -> Slots<K>
        ensures { result ≡ [] }
    {
        Slots {
            map: BTreeMap::new(alloc),
        }
    }

    /// The index of a key. A slot that is only made ahead holds none yet.
    pub fn get(&self, key: &K) -> Option<usize>
        ensures { result ≡ index_of K.cmp self.now key.now }
    {
        match self.map.get(key) {
            Some(index) => *index,
            None => None,
        }
    }

    /// Makes the key's slot, if it has none.
    pub fn make(&mut self, key: K) -> Result<(), AllocError>
        ensures same { SameSlots K.cmp self.old self.new }
        ensures there { OnOk result (HasSlot K.cmp self.new key) }
        ensures kept { KeepsSlots K.cmp self.old self.new }
        ensures only { AddsOnly K.cmp (λ q. is_at (K.cmp key) q) self.old self.new }
    {
        if !self.map.contains_key(&key) {
            self.map.insert(key, None)?;
        }
        Ok(())
    }

    /// Fills the slot that was made for a key, if it isn't filled yet. It takes no memory.
    pub fn fill(&mut self, key: &K, index: usize)
        requires { HasSlot K.cmp self.old key.now }
        ensures filled { FillsSlot K.cmp key.now index self.old self.new }
        ensures kept { KeepsSlots K.cmp self.old self.new }
    {
        if let Some(made) = self.map.get_mut(key) {
            if made.is_none() {
                *made = Some(index);
            }
        }
    }

    /// Takes back the slot that was made for a key, where it isn't filled.
    pub fn release(&mut self, key: &K)
        ensures { TakesSlotsBack K.cmp (λ q. is_at (K.cmp key.now) q) self.old self.new }
    {
        if self.is_empty_at(key) {
            self.map.remove(key);
        }
    }

    // Whether a slot is made ahead for a key, and isn't filled.
    fn is_empty_at(&self, key: &K) -> bool
        ensures { result ≡ is_empty_at K.cmp self.now key.now }
    {
        match self.map.get(key) {
            Some(index) => index.is_none(),
            None => false,
        }
    }
}
