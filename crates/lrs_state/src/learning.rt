// Courses and their learners.
ghost use Rattle.std.specs.Prelude.{◌≡◌, [], OnOk};
ghost use Rattle.lrs_state.specs.Learning.{IsLearningReadyFor, KeepsLearning, MakesLearningSlots};
ghost use Rattle.lrs_state.specs.Learning.{TakesLearningSlotsBack};

use crate::{
    Courses, Editions, Effect, HeldSessions, Keys, Launches, MadeSessions, Registrations, Tokens,
};
use lrs_json::Memory;
use std::alloc::Global;

/// What a store holds of courses and of their learners.
#[derive(Drop)]
pub struct Learning {
    pub editions: Editions,
    pub courses: Courses,
    pub registrations: Registrations,
    pub launches: Launches,
    pub sessions: HeldSessions,
    pub made_sessions: MadeSessions,
    pub keys: Keys,
    pub tokens: Tokens,
}

impl Learning {
    /// Of a store without entries.
    pub fn new(alloc: Global) -> Learning
        ensures editions { result.editions.held ≡ [] }
        ensures courses { result.courses.held ≡ [] }
        ensures registrations { result.registrations.held ≡ [] }
        ensures launches { result.launches.held ≡ [] }
        ensures sessions { result.sessions.held ≡ [] }
        ensures made_sessions { result.made_sessions.held ≡ [] }
        ensures keys { result.keys.held ≡ [] }
        ensures tokens { result.tokens.held ≡ [] }
    {
        Learning {
            editions: Editions::new(alloc),
            courses: Courses::new(alloc),
            registrations: Registrations::new(alloc),
            launches: Launches::new(alloc),
            sessions: HeldSessions::new(alloc),
            made_sessions: MadeSessions::new(alloc),
            keys: Keys::new(alloc),
            tokens: Tokens::new(alloc),
        }
    }

    /// Makes room for an effect in each of its lists.
    pub fn ready(&mut self, effect: &Effect) -> Result<(), Memory>
        ensures same { KeepsLearning self.old self.new }
        ensures ready { OnOk result (IsLearningReadyFor self.new effect.now) }
        ensures made { MakesLearningSlots self.old self.new effect.now }
    {
        self.editions.ready(&effect.editions)?;
        self.courses.ready(&effect.courses)?;
        self.registrations.ready(&effect.registrations)?;
        self.launches.ready(&effect.launches)?;
        self.sessions.ready(&effect.sessions)?;
        self.made_sessions.ready(&effect.made_sessions)?;
        self.keys.ready(&effect.keys)?;
        self.tokens.ready(&effect.tokens)
    }

    /// Takes back the slots that were made for an effect which doesn't come.
    pub fn release(&mut self, effect: &Effect)
        ensures same { KeepsLearning self.old self.new }
        ensures back { TakesLearningSlotsBack self.old self.new effect.now }
    {
        self.editions.release(&effect.editions);
        self.courses.release(&effect.courses);
        self.registrations.release(&effect.registrations);
        self.launches.release(&effect.launches);
        self.made_sessions.release(&effect.made_sessions);
        self.keys.release(&effect.keys);
        self.tokens.release(&effect.tokens);
    }
}
