// What the desk knows of sessions.
ghost use Rattle.std.specs.Prelude.{◌≡◌, [], length, slice_get, OnOk};
ghost use Rattle.lrs_state.specs.Sessions.{HasRoomForSession, HasRoomIf, as_abandoned, as_of, changes_sessions};
ghost use Rattle.lrs_state.specs.Sessions.{is_abandoned_in, sessions_after, unchanged_sessions, with_abandoned};
ghost use Rattle.lrs_state.specs.Sessions.{with_changed, with_fetched, with_launched};

use crate::Counted;
use lrs_json::{Items, Memory};
use lrs_names::Id;
use lrs_register::{Change, Keyed};
use lrs_time::Moment;
use std::alloc::{AllocError, Global};
use std::marker::Model;

/// What the desk knows of the session of a launch.
#[derive(Clone, Copy, Drop)]
pub struct HeldSession {
    /// When it was launched, or when its token was given away if it was.
    pub moment: Moment,
    pub abandoned: bool,
}

/// What an entry changes among the sessions.
#[derive(Drop)]
pub struct SessionsChange {
    /// Those that it abandons, by the numbers of their launches.
    pub abandoned: Items<u32>,
    /// The one whose token it gives away, by the number of its launch.
    pub fetched: Option<u32>,
    /// Whether one begins: that of the launch that it makes.
    pub launched: bool,
}

impl SessionsChange {
    /// No change.
    pub fn none(alloc: Global) -> SessionsChange
        ensures { result ≡ unchanged_sessions }
    {
        SessionsChange {
            abandoned: Items::new(alloc),
            fetched: None,
            launched: false,
        }
    }

    /// Whether anything is changed.
    pub fn changes(&self) -> bool
        ensures { result ≡ changes_sessions self.now }
    {
        !self.abandoned.is_empty() || self.fetched.is_some() || self.launched
    }
}

/// What the desk knows of the sessions of launches, one for each launch and in their order.
#[derive(Drop)]
pub struct HeldSessions {
    held: Vec<HeldSession>,
}

impl Model for HeldSessions {
    ghost use Rattle.std.specs.Prelude.{vec_len, vec_capacity, ◌-◌};
    ghost use Rattle.lrs_state.specs.Sessions.{SeenHeldSessions};

    ghost Value = { SeenHeldSessions };

    ghost view = { λ s. record { held = s.held.items; spare = vec_capacity s.held - vec_len s.held } };
}

impl HeldSessions {
    pub fn new(alloc: Global) -> HeldSessions
        ensures { result.held ≡ [] }
    {
        HeldSessions {
            held: Vec::new(alloc),
        }
    }

    /// How many sessions there are.
    pub fn len(&self) -> usize
        ensures { result ≡ length self.now.held }
    {
        self.held.len()
    }

    /// What is known of the session of the launch of that number.
    pub fn get(&self, number: u32) -> Option<HeldSession>
        ensures { result ≡ slice_get self.now.held number }
    {
        self.held.get(number as usize).copied()
    }

    /// Whether the session of the launch of that number was abandoned.
    pub fn is_abandoned(&self, number: u32) -> bool
        ensures { result ≡ is_abandoned_in self.now.held number }
    {
        match self.get(number) {
            Some(session) => session.abandoned,
            None => false,
        }
    }

    /// Makes room for a change.
    pub fn ready(&mut self, change: &SessionsChange) -> Result<(), Memory>
        ensures held { self.new.held ≡ self.old.held }
        ensures room { OnOk result (HasRoomForSession self.new change.now) }
    {
        if !change.launched {
            return Ok(());
        }
        self.held.reserve(1)?;
        Ok(())
    }

    /// Takes the change of an entry of that moment in, for which there is room. It takes no memory.
    pub fn install(&mut self, moment: Moment, change: SessionsChange)
        requires { HasRoomForSession self.old change }
        ensures { self.new.held ≡ sessions_after moment self.old.held change }
    {
        self.install_abandoned(change.abandoned.as_slice());
        self.install_fetched(moment, change.fetched);
        self.install_launched(moment, change.launched);
    }

    fn install_abandoned(&mut self, numbers: &[u32])
        ensures held { self.new.held ≡ with_abandoned self.old.held numbers.now }
        ensures spare { self.new.spare ≡ self.old.spare }
    {
        for number in numbers {
            self.abandon(*number);
        }
    }

    fn abandon(&mut self, number: u32)
        ensures held { self.new.held ≡ with_changed as_abandoned self.old.held number }
        ensures spare { self.new.spare ≡ self.old.spare }
    {
        if let Some(session) = self.held.get_mut(number as usize) {
            session.abandoned = true;
        }
    }

    fn install_fetched(&mut self, moment: Moment, number: Option<u32>)
        ensures held { self.new.held ≡ with_fetched moment self.old.held number }
        ensures spare { self.new.spare ≡ self.old.spare }
    {
        if let Some(number) = number {
            self.set_moment(number, moment);
        }
    }

    fn set_moment(&mut self, number: u32, moment: Moment)
        ensures held { self.new.held ≡ with_changed (as_of moment) self.old.held number }
        ensures spare { self.new.spare ≡ self.old.spare }
    {
        if let Some(session) = self.held.get_mut(number as usize) {
            session.moment = moment;
        }
    }

    fn install_launched(&mut self, moment: Moment, launched: bool)
        requires { HasRoomIf launched self.old.spare }
        ensures { self.new.held ≡ with_launched moment self.old.held launched }
    {
        if launched {
            self.held.push_reserved(HeldSession {
                moment,
                abandoned: false,
            });
        }
    }
}

/// A session id that an enrolment or a waiver made: no launch's.
#[derive(Drop)]
pub struct MadeSession {
    pub id: Id,
}

/// What an entry changes among the session ids that aren't a launch's: one that it makes.
pub type MadeSessionsChange = Change<MadeSession>;

impl Keyed<Id> for MadeSession {
    ghost use Rattle.lrs_state.specs.Sessions.{made_session_id};

    ghost key = { made_session_id };

    fn key(&self) -> &Id {
        &self.id
    }

    fn key_copy(&self) -> Result<Id, AllocError> {
        Ok(self.id)
    }
}

/// The session ids that enrolments and waivers made, in that order.
pub type MadeSessions = Counted<Id, MadeSession>;
