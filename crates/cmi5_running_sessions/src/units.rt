// What was reached of the units of one registration.
ghost use Rattle.std.specs.Prelude.{◌≡◌, ◌<◌, ◌≤◌, [], IsTrue, is_some, nat_lt, length, option_map, None, IfOk, OnOk};
ghost use Rattle.std.specs.Map.{lookup};
ghost use Rattle.cmi5_running_sessions.specs.Maps.{is_empty_slot, is_nothing_reached};
ghost use Rattle.cmi5_running_sessions.specs.Maps.{reached_behind, reached_without, ChangesAt, MakesAt};
ghost use Rattle.cmi5_running_sessions.specs.Kept.{is_same, nothing_reached};
ghost use Rattle.lrs_json.specs.View.{view};

use cmi5_session::{COMPLETED, PASSED, one_less, one_more, says};
use lrs_json::{Memory, Text, Tree};
use std::collections::BTreeMap;
use std::marker::Model;

/// How many statements that aren't voided say that a unit was completed in a registration, and that it was passed.
#[derive(Clone, Copy)]
pub struct Reached {
    pub completed: usize,
    pub passed: usize,
}

impl Reached {
    pub(crate) fn nothing() -> Reached
        ensures { result ≡ nothing_reached }
    {
        Reached {
            completed: 0,
            passed: 0,
        }
    }

    pub(crate) fn is_nothing(self) -> bool
        ensures { result ≡ is_nothing_reached self }
    {
        self.completed == 0 && self.passed == 0
    }

    /// Adds a statement that counts.
    pub(crate) fn count(&mut self, statement: &Tree)
        ensures { self.new ≡ reached_behind (view statement.now) self.old }
    {
        *self = Reached {
            completed: one_more(self.completed, says(COMPLETED, statement)),
            passed: one_more(self.passed, says(PASSED, statement)),
        };
    }

    /// Takes a statement back that counted.
    pub(crate) fn discount(&mut self, statement: &Tree)
        ensures { self.new ≡ reached_without (view statement.now) self.old }
    {
        *self = Reached {
            completed: one_less(self.completed, says(COMPLETED, statement)),
            passed: one_less(self.passed, says(PASSED, statement)),
        };
    }
}

/// What was reached of the units of one registration, by activity. It is kept of one unit at least.
#[derive(Drop)]
pub(crate) struct Units {
    map: BTreeMap<Text, Reached>,
}

impl Model for Units {
    ghost use Rattle.std.specs.Prelude.{◌<◌, List, ℕ, length};
    ghost use Rattle.cmi5_running_sessions.specs.declared.units.Reached.{Reached as SpecReached};

    ghost Value = { List (List ℕ × SpecReached) };

    ghost view = { λ u. u.map.entries };

    ghost invariant = { λ u. 0 < length u.map.entries };
}

impl Units {
    /// The slot of one activity, in which nothing is kept.
    pub(crate) fn of(activity: &Text) -> Result<Units, Memory>
        ensures made { IfOk result (λ units. MakesAt nothing_reached (λ k. is_same activity.now k) [] units) }
        ensures there { IfOk result (λ units. IsTrue (is_some (lookup (is_same activity.now) units))) }
    {
        let mut map = BTreeMap::new(activity.allocator());
        make_at(&mut map, activity)?;
        Ok(Units { map })
    }

    /// What was reached of an activity, if it has a slot.
    pub(crate) fn get(&self, activity: &Text) -> Option<Reached>
        ensures { result ≡ lookup (is_same activity.now) self.now }
    {
        match self.map.get(activity) {
            Some(reached) => Some(*reached),
            None => None,
        }
    }

    pub(crate) fn is_empty_at(&self, activity: &Text) -> bool
        ensures { result ≡ is_empty_slot is_nothing_reached (lookup (is_same activity.now) self.now) }
    {
        match self.get(activity) {
            Some(reached) => reached.is_nothing(),
            None => false,
        }
    }

    /// Whether more than one activity has a slot.
    pub(crate) fn has_others(&self) -> bool
        ensures { result ≡ nat_lt 1 (length self.now) }
    {
        1 < self.map.len()
    }

    /// Makes the slot of an activity, if it has none.
    pub(crate) fn make(&mut self, activity: &Text) -> Result<(), Memory>
        ensures made { MakesAt nothing_reached (λ k. is_same activity.now k) self.old self.new }
        ensures there { OnOk result (IsTrue (is_some (lookup (is_same activity.now) self.new))) }
    {
        make_at(&mut self.map, activity)
    }

    /// Takes the slot of an activity out, which isn't the only one.
    pub(crate) fn remove(&mut self, activity: &Text)
        requires { 1 < length self.old }
        ensures changed { ChangesAt (λ k. is_same activity.now k) (λ slot. None) self.old self.new }
        ensures some { 0 < length self.new }
    {
        self.map.remove(activity);
    }

    /// Counts a statement for an activity that has a slot. It takes no memory.
    pub(crate) fn count(&mut self, activity: &Text, statement: &Tree)
        requires { IsTrue (is_some (lookup (is_same activity.now) self.old)) }
        ensures { ChangesAt (λ k. is_same activity.now k) (option_map (reached_behind (view statement.now)))
            self.old self.new }
    {
        match self.map.get_mut(activity) {
            Some(reached) => reached.count(statement),
            None => {}
        }
    }

    /// Takes a statement back that counted for an activity. It takes no memory.
    pub(crate) fn discount(&mut self, activity: &Text, statement: &Tree)
        requires { IsTrue (is_some (lookup (is_same activity.now) self.old)) }
        ensures { ChangesAt (λ k. is_same activity.now k) (option_map (reached_without (view statement.now)))
            self.old self.new }
    {
        match self.map.get_mut(activity) {
            Some(reached) => reached.discount(statement),
            None => {}
        }
    }
}

fn make_at(map: &mut BTreeMap<Text, Reached>, activity: &Text) -> Result<(), Memory>
    ensures made { MakesAt nothing_reached (λ k. is_same activity.now k) map.old.entries map.new.entries }
    ensures there { OnOk result (IsTrue (is_some (lookup (is_same activity.now) map.new.entries))) }
    ensures longer { length map.old.entries ≤ length map.new.entries }
{
    if map.contains_key(activity) {
        return Ok(());
    }
    map.insert(activity.clone()?, Reached::nothing())?;
    Ok(())
}
