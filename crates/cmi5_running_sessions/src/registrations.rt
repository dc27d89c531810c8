// What was reached, by registration and activity.
ghost use Rattle.std.specs.Prelude.{◌≡◌, [], ℕ, List, IsTrue, true, is_some, nat_lt, length, option_map, None, OnOk};
ghost use Rattle.cmi5_running_sessions.specs.Maps.{is_empty_slot, is_nothing_reached, is_same_unit, kept_in};
ghost use Rattle.cmi5_running_sessions.specs.Maps.{reached_behind, reached_without, taken_back, unit_at};
ghost use Rattle.cmi5_running_sessions.specs.Maps.{AddsFilled, AddsNoRegistrations, ChangesUnits};
ghost use Rattle.cmi5_running_sessions.specs.Maps.{MakesUnits, StaysFilled};
ghost use Rattle.cmi5_running_sessions.specs.Kept.{nothing_reached, units_of};
ghost use Rattle.cmi5_running_sessions.specs.Room.{needs_unit};
ghost use Rattle.lrs_json.specs.View.{view};

use crate::Reached;
use crate::told::unit_told;
use crate::units::Units;
use cmi5_session::StoredStatement;
use lrs_json::{Memory, Text, Tree};
use lrs_names::Id;
use std::alloc::Global;
use std::collections::BTreeMap;
use std::marker::Model;

/// What was reached in each registration. One in which no unit has a slot isn't kept.
#[derive(Drop)]
pub(crate) struct ReachedByRegistration {
    map: BTreeMap<Id, Units>,
}

impl Model for ReachedByRegistration {
    ghost use Rattle.cmi5_running_sessions.specs.Maps.{UnitsByRegistration};

    ghost Value = { UnitsByRegistration };

    ghost view = { λ r. r.map.entries };
}

impl ReachedByRegistration {
    pub(crate) fn new(alloc: Global) -> ReachedByRegistration
        ensures { result ≡ [] }
    {
        ReachedByRegistration {
            map: BTreeMap::new(alloc),
        }
    }

    /// What was reached of an activity in a registration.
    pub(crate) fn get(&self, registration: &Id, activity: &Text) -> Reached
        ensures { result ≡ kept_in nothing_reached (unit_at registration.now activity.now self.now) }
    {
        match self.find(registration, activity) {
            Some(reached) => reached,
            None => Reached::nothing(),
        }
    }

    // The same, if there is a slot.
    fn find(&self, registration: &Id, activity: &Text) -> Option<Reached>
        ensures { result ≡ unit_at registration.now activity.now self.now }
    {
        match self.map.get(registration) {
            Some(units) => units.get(activity),
            None => None,
        }
    }

    // ---- slots

    /// Makes the slot that a statement needs.
    pub(crate) fn ready(&mut self, statement: &StoredStatement) -> Result<(), Memory>
        ensures made { MakesUnits (λ r a. needs_unit r a statement.now) self.old self.new }
        ensures filled { AddsFilled self.old self.new }
        ensures there { OnOk result ((r a : List ℕ) → needs_unit r a statement.now ≡ true
            → IsTrue (is_some (unit_at r a self.new))) }
    {
        match unit_told(statement) {
            Some(unit) => self.make(unit.registration, unit.activity),
            None => Ok(()),
        }
    }

    fn make(&mut self, registration: Id, activity: &Text) -> Result<(), Memory>
        ensures made { MakesUnits (is_same_unit registration activity.now) self.old self.new }
        ensures filled { AddsFilled self.old self.new }
        ensures there { OnOk result (IsTrue (is_some (unit_at registration activity.now self.new))) }
    {
        match self.map.get_mut(&registration) {
            Some(units) => units.make(activity),
            None => make_first(&mut self.map, registration, activity),
        }
    }

    /// Takes the slot back that a statement needs, if nothing is kept there.
    pub(crate) fn release(&mut self, statement: &StoredStatement)
        ensures changed { ChangesUnits (λ r a. needs_unit r a statement.now) (taken_back is_nothing_reached)
            self.old self.new }
        ensures fewer { AddsNoRegistrations self.old self.new }
        ensures filled { StaysFilled self.old self.new }
    {
        if let Some(unit) = unit_told(statement) {
            self.take_back(&unit.registration, unit.activity);
        }
    }

    fn take_back(&mut self, registration: &Id, activity: &Text)
        ensures changed { ChangesUnits (is_same_unit registration.now activity.now) (taken_back is_nothing_reached)
            self.old self.new }
        ensures fewer { AddsNoRegistrations self.old self.new }
        ensures filled { StaysFilled self.old self.new }
    {
        if self.is_empty_at(registration, activity) {
            self.take_out(registration, activity);
        }
    }

    fn is_empty_at(&self, registration: &Id, activity: &Text) -> bool
        ensures { result ≡ is_empty_slot is_nothing_reached (unit_at registration.now activity.now self.now) }
    {
        match self.map.get(registration) {
            Some(units) => units.is_empty_at(activity),
            None => false,
        }
    }

    // Takes a slot out, and the registration with its last one.
    fn take_out(&mut self, registration: &Id, activity: &Text)
        requires { IsTrue (is_some (unit_at registration.now activity.now self.old)) }
        ensures changed { ChangesUnits (is_same_unit registration.now activity.now) (λ slot. None) self.old self.new }
        ensures fewer { AddsNoRegistrations self.old self.new }
        ensures filled { StaysFilled self.old self.new }
    {
        if self.has_others(registration) {
            self.take_from(registration, activity);
        } else {
            let units = self.map.remove(registration);
            drop(units);
        }
    }

    // Whether more than one activity has a slot in the registration.
    fn has_others(&self, registration: &Id) -> bool
        ensures { result ≡ nat_lt 1 (length (units_of registration.now self.now)) }
    {
        match self.map.get(registration) {
            Some(units) => units.has_others(),
            None => false,
        }
    }

    fn take_from(&mut self, registration: &Id, activity: &Text)
        requires { nat_lt 1 (length (units_of registration.now self.old)) ≡ true }
        ensures changed { ChangesUnits (is_same_unit registration.now activity.now) (λ slot. None) self.old self.new }
        ensures fewer { AddsNoRegistrations self.old self.new }
        ensures filled { StaysFilled self.old self.new }
    {
        match self.map.get_mut(registration) {
            Some(units) => units.remove(activity),
            None => {}
        }
    }

    // ---- statements

    /// Counts a statement that isn't voided and has a slot. It takes no memory.
    pub(crate) fn install(&mut self, statement: &StoredStatement)
        requires { (r a : List ℕ) → needs_unit r a statement.now ≡ true
            → IsTrue (is_some (unit_at r a self.old)) }
        ensures { ChangesUnits (λ r a. needs_unit r a statement.now)
            (option_map (reached_behind (view statement.now.received))) self.old self.new }
    {
        if let Some(unit) = unit_told(statement) {
            self.count(&unit.registration, unit.activity, statement.received());
        }
    }

    fn count(&mut self, registration: &Id, activity: &Text, statement: &Tree)
        requires { IsTrue (is_some (unit_at registration.now activity.now self.old)) }
        ensures { ChangesUnits (is_same_unit registration.now activity.now)
            (option_map (reached_behind (view statement.now))) self.old self.new }
    {
        match self.map.get_mut(registration) {
            Some(units) => units.count(activity, statement),
            None => {}
        }
    }

    /// Takes a statement back that was counted and is voided now. It takes no memory.
    pub(crate) fn void(&mut self, statement: &StoredStatement)
        ensures { ChangesUnits (λ r a. needs_unit r a statement.now)
            (option_map (reached_without (view statement.now.received))) self.old self.new }
    {
        if let Some(unit) = unit_told(statement) {
            self.void_at(&unit.registration, unit.activity, statement.received());
        }
    }

    fn void_at(&mut self, registration: &Id, activity: &Text, statement: &Tree)
        ensures { ChangesUnits (is_same_unit registration.now activity.now)
            (option_map (reached_without (view statement.now))) self.old self.new }
    {
        if self.has_slot(registration, activity) {
            self.discount(registration, activity, statement);
        }
    }

    fn has_slot(&self, registration: &Id, activity: &Text) -> bool
        ensures { result ≡ is_some (unit_at registration.now activity.now self.now) }
    {
        self.find(registration, activity).is_some()
    }

    fn discount(&mut self, registration: &Id, activity: &Text, statement: &Tree)
        requires { IsTrue (is_some (unit_at registration.now activity.now self.old)) }
        ensures { ChangesUnits (is_same_unit registration.now activity.now)
            (option_map (reached_without (view statement.now))) self.old self.new }
    {
        match self.map.get_mut(registration) {
            Some(units) => units.discount(activity, statement),
            None => {}
        }
    }
}

// The units are made whole before they come into the map.
fn make_first(
    map: &mut BTreeMap<Id, Units>,
    registration: Id,
    activity: &Text,
) -> Result<(), Memory>
    requires { units_of registration map.old.entries ≡ [] }
    ensures made { MakesUnits (is_same_unit registration activity.now) map.old.entries map.new.entries }
    ensures filled { AddsFilled map.old.entries map.new.entries }
    ensures there { OnOk result (IsTrue (is_some (unit_at registration activity.now map.new.entries))) }
{
    let units = Units::of(activity)?;
    let before = map.insert(registration, units)?;
    drop(before);
    Ok(())
}
