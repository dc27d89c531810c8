// Positions by key.
ghost use Rattle.std.specs.Prelude.{◌≡◌, [], nat_lt, true, slice_get, IfOk, OnOk, OnErr, Some};
ghost use Rattle.std.specs.List.{list_any};
ghost use Rattle.xapi_postings.specs.Ascending.{below};
ghost use Rattle.xapi_postings.specs.Postings.{posted, posted_if_none, posting_of, Changes, SamePostings};

use crate::positions::Positions;
use lrs_json::Memory;
use std::alloc::Global;
use std::collections::BTreeMap;
use std::marker::Model;
use xapi_statement_keys::Key;

/// The positions under each key, in the order in which they were put. A key without positions isn't kept.
#[derive(Drop)]
pub struct Postings {
    alloc: Global,
    map: BTreeMap<Key, Positions>,
}

impl Model for Postings {
    ghost use Rattle.std.specs.Prelude.{List, ℕ};
    ghost use Rattle.xapi_statement_keys.specs.declared.key.Key.{Key as SpecKey};

    ghost Value = { List (SpecKey × List ℕ) };

    ghost view = { λ p. p.map.entries };
}

impl Postings {
    pub fn new(alloc: Global) -> Postings
        ensures { result ≡ [] }
    {
        Postings {
            alloc,
            map: BTreeMap::new(alloc),
        }
    }

    /// The positions under a key.
    pub fn get(&self, key: &Key) -> &[u32]
        ensures { result.now ≡ posting_of key.now self.now }
    {
        match self.map.get(key) {
            Some(positions) => positions.as_slice(),
            None => &[],
        }
    }

    /// Puts a position under a key, behind the others, if it isn't the last of them already.
    pub fn post(&mut self, key: &Key, position: u32) -> Result<(), Memory>
        ensures posted { OnOk result (Changes key.now (posted position) self.old self.new) }
        ensures same { OnErr result (SamePostings self.old self.new) }
    {
        match self.map.get_mut(key) {
            Some(positions) => positions.put(position),
            None => post_first(self.alloc, &mut self.map, key, position),
        }
    }

    /// Puts a position under a key if none stands there, and tells the first that stands there then. It looks for the
    /// key once.
    pub fn post_if_none(&mut self, key: &Key, position: u32) -> Result<u32, Memory>
        ensures first { IfOk result (λ first. Some first ≡ slice_get (posting_of key.now self.new) 0) }
        ensures posted { OnOk result (Changes key.now (posted_if_none position) self.old self.new) }
        ensures same { OnErr result (SamePostings self.old self.new) }
    {
        let positions = Positions::of(self.alloc, position)?;
        let list = self.map.entry(key.copy()?)?.or_insert(positions);
        Ok(list.first())
    }

    /// Takes the positions under a key back that aren't below a bound, and the key out if none is left. It takes no
    /// memory.
    pub fn cut(&mut self, key: &Key, n: usize)
        ensures { Changes key.now (below n) self.old self.new }
    {
        if has_below(self.get(key), n) {
            self.cut_list(key, n);
        } else {
            let positions = self.map.remove(key);
            drop(positions);
        }
    }

    fn cut_list(&mut self, key: &Key, n: usize)
        requires { list_any (λ k. nat_lt k n) (posting_of key.now self.old) ≡ true }
        ensures { Changes key.now (below n) self.old self.new }
    {
        match self.map.get_mut(key) {
            Some(positions) => positions.cut(n),
            None => {}
        }
    }
}

fn post_first(
    alloc: Global,
    map: &mut BTreeMap<Key, Positions>,
    key: &Key,
    position: u32,
) -> Result<(), Memory>
    requires { posting_of key.now map.old.entries ≡ [] }
    ensures posted { OnOk result (Changes key.now (posted position) map.old.entries map.new.entries) }
    ensures same { OnErr result (SamePostings map.old.entries map.new.entries) }
{
    let positions = Positions::of(alloc, position)?;
    let before = map.insert(key.copy()?, positions)?;
    drop(before);
    Ok(())
}

fn has_below(list: &[u32], n: usize) -> bool
    ensures { result ≡ list_any (λ k. nat_lt k n) list.now }
{
    list.iter().any(|k| (*k as usize) < n)
}
