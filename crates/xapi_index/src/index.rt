// The statements by position and by key, with what is to come written ahead.
ghost use Rattle.std.specs.Prelude.{◌≡◌, OnOk, [], ◌≤◌, ◌<◌, Some, false, position, length, slice_get, take, IfSome};
ghost use Rattle.std.specs.Option.{option_copied, option_map_or};
ghost use Rattle.std.specs.Str.{bytes_eq};
ghost use Rattle.std.specs.Vec.Iter.{into_iter_items};
ghost use Rattle.xapi_index.specs.Ahead.{AreTextsOf};
ghost use Rattle.xapi_index.specs.Index.{HoldsNothingAhead, IsIndexReadyFor, IsPosting};
ghost use Rattle.xapi_postings.specs.XapiStatementStatements.{add_each, held_under, is_held, is_target, is_voided, voids};
ghost use Rattle.xapi_postings.specs.XapiStatementStatements.{position_referred, referred_at};
ghost use Rattle.xapi_index.specs.Times.{AreLaterFrom};
ghost use Rattle.xapi_postings.specs.XapiStatementStored.{StoredStatement as SpecStatement};
ghost use Rattle.xapi_postings.specs.XapiStatementKeysKeys.{has_key};

use crate::ahead::{cut_each, ready_each};
use crate::authorities::Authorities;
use crate::installing::install_each;
use crate::positions::first_below;
use crate::times::later_in;
use lrs_ids::UsedIds;
use lrs_json::Memory;
use lrs_names::Id;
use lrs_time::Instant;
use std::alloc::Global;
use std::marker::Model;
use std::vec::IntoIter;
use xapi_postings::{HeldStatement, Key, Keys, Postings, ReceivedText, StoredStatement};

/// The statements in their order, and the positions under each of their keys.
#[derive(Drop)]
pub struct Index {
    held: Vec<HeldStatement>,
    // Also the positions of statements that are to come, which aren't below the length.
    postings: Postings,
    // The keys of the statements that are to come.
    coming: Vec<Keys>,
    // Those of them that are new, in their order.
    ahead: Vec<HeldStatement>,
    // What statements share that are to come.
    authorities: Authorities,
    // Whether no statement is older than one before it.
    rising: bool,
}

impl Model for Index {
    ghost use Rattle.std.specs.Prelude.{vec_len, vec_capacity, ◌-◌};
    ghost use Rattle.std.specs.Coded.{codes};
    ghost use Rattle.lrs_json.specs.contracts.tree.Tree as tree;
    ghost use Rattle.xapi_index.specs.Index.{Indexed, IsIndex, lists_of};

    ghost Value = { Indexed };

    ghost coded = { Prim.hlevel (codes, tree.the_row.coded) };

    ghost view = { λ i. record {
      held = i.held.items;
      postings = i.postings;
      coming = lists_of i.coming.items;
      ahead = i.ahead.items;
      spare = vec_capacity i.held -
          vec_len i.held;
    } };

    ghost invariant = { λ i. IsIndex i.held.items i.postings (lists_of i.coming.items) i.rising };
}

impl Index {
    pub fn new(alloc: Global) -> Index
        ensures { result.held ≡ [] }
    {
        let held = Vec::new(alloc);
        let postings = Postings::new(alloc);
        let coming = Vec::new(alloc);
        let ahead = Vec::new(alloc);
        let authorities = Authorities::new(alloc);
        Index {
            held,
            postings,
            coming,
            ahead,
            authorities,
            rising: true,
        }
    }

    /// How many statements there are.
    pub fn len(&self) -> usize
        ensures { result ≡ length self.now.held }
    {
        self.held.len()
    }

    // The position of the statement that is held under an id, in their order.
    fn position_of(&self, id: &Id) -> Option<usize>
        ensures { result ≡ position (λ s. bytes_eq s.id id.now) self.now.held }
    {
        let key = Key::Statement(*id);
        let first = self.first_with(&key);
        drop(key);
        first
    }

    // The position of the first statement with a key.
    fn first_with(&self, key: &Key) -> Option<usize>
        ensures { result ≡ position (has_key key.now) self.now.held }
    {
        first_below(self.posting(key), self.len())
    }

    /// The statement that is held under an id.
    pub fn find(&self, id: &Id) -> Option<&HeldStatement>
        ensures { option_copied result ≡ held_under id.now self.now.held }
    {
        match self.position_of(id) {
            Some(position) => self.get(position),
            None => None,
        }
    }

    /// Whether a statement is held under an id.
    pub fn is_held(&self, id: &Id) -> bool
        ensures { result ≡ is_held id.now self.now.held }
    {
        self.find(id).is_some()
    }

    /// The statement at a position.
    pub fn get(&self, at: usize) -> Option<&HeldStatement>
        ensures { option_copied result ≡ slice_get self.now.held at }
    {
        self.held.get(at)
    }

    // The position of the statement under an id among the first n.
    fn position_in(&self, n: usize, id: &Id) -> Option<usize>
        ensures { result ≡ position (λ s. bytes_eq s.id id.now) (take n self.now.held) }
    {
        match self.position_of(id) {
            Some(position) => { if position < n { Some(position) } else { None } }
            None => None,
        }
    }

    /// The position of the statement to which the one at a position refers, among the first n.
    pub fn referred_at(&self, n: usize, at: usize) -> Option<usize>
        requires { at < n }
        ensures { result ≡ referred_at (take n self.now.held) at }
    {
        match self.held.get(at) {
            Some(held) => self.position_referred(n, held),
            None => None,
        }
    }

    fn position_referred(&self, n: usize, held: &HeldStatement) -> Option<usize>
        ensures { result ≡ position_referred (take n self.now.held) held.now }
    {
        match held.target() {
            Some(id) => self.position_in(n, &id),
            None => None,
        }
    }

    // ---- voiding

    // The position of the first voiding statement that has that id as its target.
    fn voiding(&self, id: &Id) -> Option<usize>
        ensures { result ≡ position (voids id.now) self.now.held }
    {
        let key = Key::Voiding(*id);
        let first = self.first_with(&key);
        drop(key);
        first
    }

    /// Whether a statement is voided by one that is held.
    pub fn is_voided(&self, statement: &HeldStatement) -> bool
        ensures { result ≡ is_voided self.now.held statement.now }
    {
        !statement.is_voiding() && self.is_target(&statement.id())
    }

    /// Whether a statement that is held voids the one of that id, held or not.
    pub fn is_target(&self, id: &Id) -> bool
        ensures { result ≡ is_target id.now self.now.held }
    {
        self.voiding(id).is_some()
    }

    /// Whether the statement at a position is voided by one of the first n.
    pub fn is_voided_at(&self, n: usize, at: usize) -> bool
        ensures { result ≡ option_map_or (is_voided (take n self.now.held)) (slice_get self.now.held at) false }
    {
        match self.held.get(at) {
            Some(held) => self.is_held_voided(n, held),
            None => false,
        }
    }

    fn is_held_voided(&self, n: usize, held: &HeldStatement) -> bool
        ensures { result ≡ is_voided (take n self.now.held) held.now }
    {
        !held.is_voiding() && self.is_target_in(n, &held.id())
    }

    // Whether one of the first n that void has that id as its target.
    fn is_target_in(&self, n: usize, id: &Id) -> bool
        ensures { result ≡ is_target id.now (take n self.now.held) }
    {
        match self.voiding(id) {
            Some(position) => position < n,
            None => false,
        }
    }

    // ---- lists of positions

    /// The positions of the statements with a key, in their order. Those that aren't below the length are of statements
    /// that are to come.
    pub fn posting(&self, key: &Key) -> &[u32]
        ensures { IsPosting self.now.held (length self.now.coming) key.now result.now }
    {
        self.postings.get(key)
    }

    /// The positions of the statements that refer to the one at a position.
    pub fn referring_to(&self, at: usize) -> &[u32]
        ensures { (s : SpecStatement) → slice_get self.now.held at ≡ Some s
            → IsPosting self.now.held (length self.now.coming) (Key.Reference s.id) result.now }
    {
        match self.get(at) {
            Some(statement) => self.referring(statement.id()),
            None => &[],
        }
    }

    fn referring(&self, id: Id) -> &[u32]
        ensures { IsPosting self.now.held (length self.now.coming) (Key.Reference id) result.now }
    {
        let key = Key::Reference(id);
        let positions = self.posting(&key);
        drop(key);
        positions
    }

    /// The position from which on the first n statements were stored later than an instant. None is told if one is
    /// older than one before it.
    pub fn later_than(&self, n: usize, instant: Instant) -> Option<usize>
        requires { n ≤ length self.now.held }
        ensures { IfSome result (AreLaterFrom self.now.held n instant) }
    {
        later_in(self.held.as_slice(), self.rising, n, instant)
    }

    // ---- what is to come

    /// Makes room for these statements, makes the held forms of those that are new, and writes their positions ahead.
    /// What was made before is taken back. The texts of the first statements may have been written before: they are
    /// taken over.
    pub fn ready(
        &mut self,
        texts: &mut IntoIter<ReceivedText>,
        statements: &[StoredStatement],
    ) -> Result<(), Memory>
        requires { AreTextsOf (into_iter_items texts.old) statements.now }
        ensures held { self.new.held ≡ self.old.held }
        ensures ready { OnOk result (IsIndexReadyFor self.new statements.now) }
    {
        self.release();
        ready_each(
            &mut self.held,
            &mut self.postings,
            &mut self.coming,
            &mut self.ahead,
            &mut self.authorities,
            texts,
            statements,
        )
    }

    /// Takes back what was made ahead for statements that don't come. It takes no memory.
    pub fn release(&mut self)
        ensures held { self.new.held ≡ self.old.held }
        ensures nothing { HoldsNothingAhead self.new }
    {
        let held = self.held.len();
        cut_each(&mut self.postings, self.coming.as_slice(), held);
        self.coming.clear();
        self.ahead.clear();
    }

    /// Takes statements in that are ready, each but for one whose id is held: their held forms are moved into the list.
    /// It takes no memory. Only the clauses read the statements.
    pub fn install(&mut self, statements: &[StoredStatement])
        requires { IsIndexReadyFor self.old statements.now }
        ensures held { self.new.held ≡ add_each self.old.held statements.now }
        ensures nothing { HoldsNothingAhead self.new }
    {
        install_each(&mut self.held, &mut self.rising, &mut self.ahead);
        self.coming.clear();
    }
}

// The ids of the statements are used.
impl UsedIds for Index {
    ghost use Rattle.lrs_ids.specs.Ids.{those};
    ghost use Rattle.xapi_postings.specs.XapiStatementStatements.{ids_of};

    ghost used = { λ index. those (ids_of index.held) };

    #[tactic(auto, using(crate::proofs::Supplies::used_held))]
    fn is_used(&self, id: &Id) -> bool {
        self.is_held(id)
    }

    #[tactic(auto, using(crate::proofs::Supplies::held_counted))]
    fn count(&self) -> u128 {
        self.held.len() as u128
    }
}
