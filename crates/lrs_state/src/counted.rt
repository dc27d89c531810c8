// Registers whose items have numbers of 32 bits.
ghost use Rattle.std.specs.Prelude.{◌≡◌, [], find, is_some, length, position, slice_get, OnOk};
ghost use Rattle.std.specs.Option.{option_copied};
ghost use Rattle.lrs_state.specs.Counted.{HasRoomToCount, MakesSlotFor, TakesSlotBackFor};
ghost use Rattle.lrs_register.specs.Changes.{with_change};

use lrs_ids::UsedIds;
use lrs_json::Memory;
use lrs_names::Id;
use lrs_register::{Change, Keyed, Register};
use std::alloc::Global;
use std::marker::Model;

/// Items in the order in which they came, found by key, and so few that 32 bits number them.
#[derive(Drop)]
pub struct Counted<K: Ord + Drop, T: Keyed<K> + Drop> {
    list: Register<K, T>,
}

impl<K: Ord + Drop, T: Keyed<K> + Drop> Model for Counted<K, T> {
    ghost use Rattle.std.specs.Prelude.{◌<◌, ◌^◌, length};
    ghost use Rattle.lrs_register.specs.Register.{Registered};

    ghost Value = { Registered K T };

    ghost view = { λ c. c.list };

    ghost invariant = { λ c. length c.list.held < 2 ^ 32 };
}

impl<K: Ord + Drop, T: Keyed<K> + Drop> Counted<K, T> {
    pub fn new(alloc: Global) -> Counted<K, T>
        ensures { result.held ≡ [] }
    {
        Counted {
            list: Register::new(alloc),
        }
    }

    /// How many items there are.
    pub fn len(&self) -> usize
        ensures { result ≡ length self.now.held }
    {
        self.list.len()
    }

    /// The index of the first item under a key.
    pub fn index_of(&self, key: &K) -> Option<u32>
        ensures { result ≡ position (λ x. K.eq (T.key x) key.now) self.now.held }
    {
        match self.list.index_of(key) {
            Some(index) => Some(index as u32),
            None => None,
        }
    }

    /// The first item under a key.
    pub fn find(&self, key: &K) -> Option<&T>
        ensures { option_copied result ≡ find (λ x. K.eq (T.key x) key.now) self.now.held }
    {
        self.list.find(key)
    }

    /// Whether an item is under a key.
    pub fn contains(&self, key: &K) -> bool
        ensures { result ≡ is_some (find (λ x. K.eq (T.key x) key.now) self.now.held) }
    {
        self.find(key).is_some()
    }

    /// The item at an index.
    pub fn get(&self, index: u32) -> Option<&T>
        ensures { option_copied result ≡ slice_get self.now.held index }
    {
        self.list.get(index as usize)
    }

    /// Makes room for a change. There is none if the items can't be numbered any more.
    pub fn ready(&mut self, change: &Change<T>) -> Result<(), Memory>
        ensures held { self.new.held ≡ self.old.held }
        ensures room { OnOk result (HasRoomToCount K.cmp T.key self.new change.now) }
        ensures made { MakesSlotFor K.cmp T.key change.now self.old self.new }
    {
        if self.list.len() >= u32::MAX as usize {
            return Err(Memory);
        }
        self.list.ready_change(change)?;
        Ok(())
    }

    /// Takes back the slot that was made for a change that didn't come.
    pub fn release(&mut self, change: &Change<T>)
        ensures held { self.new.held ≡ self.old.held }
        ensures back { TakesSlotBackFor K.cmp T.key change.now self.old self.new }
    {
        self.list.release_change(change);
    }

    /// Takes a change in for which there is room. It takes no memory.
    pub fn install(&mut self, change: Change<T>)
        requires { HasRoomToCount K.cmp T.key self.old change }
        ensures { self.new.held ≡ with_change (λ x item. K.eq (T.key x) (T.key item)) self.old.held change }
    {
        self.list.install_change(change);
    }
}

// The ids of the items are used.
impl<T: Keyed<Id> + Drop> UsedIds for Counted<Id, T> {
    ghost use Rattle.std.specs.Prelude.{map};
    ghost use Rattle.lrs_ids.specs.Ids.{those};

    ghost used = { λ c. those (map T.key c.held) };

    fn is_used(&self, id: &Id) -> bool {
        self.contains(id)
    }

    fn count(&self) -> u128 {
        self.len() as u128
    }
}
