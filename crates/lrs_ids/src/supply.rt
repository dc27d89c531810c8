// The ids that are made one after another.
ghost use Rattle.std.specs.Prelude.{◌≡◌, ◌<◌, ◌≤◌, ◌+◌, ◌∷◌, IfOk, OnOk, not};
ghost use Rattle.lrs_names.specs.Members.{is_one_of};
ghost use Rattle.lrs_ids.specs.Ids.{are_distinct, free_word, is_free, made_id, rest_of};
ghost use Rattle.lrs_ids.specs.IdSupply.{GiveSame, HoldSame};

use crate::UsedIds;
use lrs_json::Memory;
use lrs_names::{Id, WORDS};
use std::alloc::Global;
use std::collections::BTreeSet;
use std::marker::Model;

/// More ids than any memory holds.
const MOST: u128 = 1 << 101;

/// The ids that are yet to be made: those of the words from one on, but for the used ones.
#[derive(Drop)]
pub struct IdSupply {
    // The ids that were given or made.
    gone: BTreeSet<Id>,
    // The next id is that of one of the next so many words, or of the one after them.
    most: u128,
    word: u128,
}

impl Model for IdSupply {
    ghost use Rattle.lrs_ids.specs.IdSupply.{IsIdSupply, IdSupply as SpecSupply};

    ghost Value = { SpecSupply };

    ghost view = { λ s. record { gone = s.gone.keys; most = s.most; word = s.word } };

    ghost invariant = { λ s. IsIdSupply s.most s.word };
}

impl IdSupply {
    ghost use Rattle.std.specs.Prelude.{◌≡◌, IfOk, OnOk};
    ghost use Rattle.lrs_ids.specs.Ids.{rest_of, supply_of};
    ghost use Rattle.lrs_ids.specs.IdSupply.{GiveSame, left_of};

    /// What an entry makes that is drawn with this name and brings these ids itself.
    pub fn new<U: UsedIds>(
        alloc: Global,
        used: &U,
        given: &[Id],
        name: u128,
    ) -> Result<IdSupply, Memory>
        ensures { IfOk result (λ supply.
            GiveSame (left_of (U.used used.now) supply) (supply_of (U.used used.now) given.now name)) }
    {
        let gone = set_of(alloc, given)?;
        Ok(IdSupply {
            gone,
            most: used.count() + given.len() as u128,
            word: name % WORDS,
        })
    }

    /// Makes the next id, which is used from then on.
    pub fn make<U: UsedIds>(&mut self, used: &U) -> Result<Id, Memory>
        ensures id { IfOk result (λ id. id ≡ left_of (U.used used.now) self.old 0) }
        ensures left { OnOk result (
            GiveSame (left_of (U.used used.now) self.new) (rest_of (left_of (U.used used.now) self.old))) }
    {
        if self.most >= MOST {
            return Err(Memory);
        }
        make_id(used, &mut self.gone, &mut self.most, &mut self.word)
    }
}

/// Whether no id stands twice.
pub fn are_distinct(alloc: Global, ids: &[Id]) -> Result<bool, Memory>
    ensures { IfOk result (λ distinct. distinct ≡ are_distinct ids.now) }
{
    let mut earlier = BTreeSet::new(alloc);
    for id in ids {
        if !add_id(&mut earlier, *id)? {
            return Ok(false);
        }
    }
    Ok(true)
}

// Adds an id, and tells whether it is new.
fn add_id(ids: &mut BTreeSet<Id>, id: Id) -> Result<bool, Memory>
    ensures new { IfOk result (λ new. new ≡ not (is_one_of ids.old.keys id)) }
    ensures added { OnOk result (HoldSame ids.new.keys (id ∷ ids.old.keys)) }
{
    Ok(ids.insert(id)?)
}

fn set_of(alloc: Global, given: &[Id]) -> Result<BTreeSet<Id>, Memory>
    ensures { IfOk result (λ ids. HoldSame ids.keys given.now) }
{
    let mut ids = BTreeSet::new(alloc);
    for id in given {
        let _new = add_id(&mut ids, *id)?;
    }
    Ok(ids)
}

// Makes an id. It is gone from then on, and the next begins at the word after.
fn make_id<U: UsedIds>(
    used: &U,
    gone: &mut BTreeSet<Id>,
    most: &mut u128,
    word: &mut u128,
) -> Result<Id, Memory>
    requires most { most.old < MOST }
    requires word { word.old < WORDS }
    ensures id { IfOk result (λ id. id ≡ made_id (U.used used.now) gone.old.keys most.old word.old 0) }
    ensures left { OnOk result (GiveSame (made_id (U.used used.now) gone.new.keys most.new word.new)
        (rest_of (made_id (U.used used.now) gone.old.keys most.old word.old))) }
    ensures most { most.new ≤ most.old + 1 }
    ensures word { word.new < WORDS }
{
    let made = free_word(used, gone, *most, *word);
    let id = Id::of_word(made);
    let _new = add_id(gone, id)?;
    *most += 1;
    *word = (made + 1) % WORDS;
    Ok(id)
}

// Of the words from that one on the first whose id is free.
fn free_word<U: UsedIds>(used: &U, gone: &BTreeSet<Id>, most: u128, word: u128) -> u128
    requires most { most ≤ MOST }
    requires word { word < WORDS }
    ensures free { result ≡ free_word (U.used used.now) gone.now.keys most word }
    ensures near { result ≤ word + most }
{
    for free in word..word + most {
        if is_free(used, gone, free) {
            return free;
        }
    }
    word + most
}

fn is_free<U: UsedIds>(used: &U, gone: &BTreeSet<Id>, word: u128) -> bool
    ensures { result ≡ is_free (U.used used.now) gone.now.keys word }
{
    let id = Id::of_word(word);
    if used.is_used(&id) {
        false
    } else {
        !gone.contains(&id)
    }
}
