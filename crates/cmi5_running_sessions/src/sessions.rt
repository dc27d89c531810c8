// What is kept of sessions.
ghost use Rattle.std.specs.Prelude.{◌≡◌, ◌<◌, ◌+◌, ◌^◌, [], ◌∷◌, ◌++◌, List, true, false, length, OnOk};
ghost use Rattle.cmi5_session.specs.Cmi5LaunchNames.{terminated};
ghost use Rattle.cmi5_running_sessions.specs.Maps.{phase_by};
ghost use Rattle.cmi5_running_sessions.specs.Kept.{SaidStandsFor};
ghost use Rattle.cmi5_running_sessions.specs.Room.{HasSlotsFor, HasSlotsForEach, KeepsSlots, MakesSlots};
ghost use Rattle.cmi5_running_sessions.specs.Room.{TakesSlotsBack};
ghost use Rattle.cmi5_session.specs.Marked.{MarkedStatement, mark, marked, statements_of};
ghost use Rattle.cmi5_session.specs.Moments.{began_at, last_own};
ghost use Rattle.cmi5_session.specs.Own.{has_own};
ghost use Rattle.cmi5_session.specs.Views.{seen, view_of};
ghost use Rattle.cmi5_session.specs.XapiStatementStored.{StoredStatement as SpecStatement};

use crate::OwnSaid;
use crate::registrations::ReachedByRegistration;
use crate::said::SaidBySession;
use cmi5_session::{Launch, Phase, SessionView, StoredStatement};
use lrs_json::Memory;
use lrs_names::Id;
use lrs_time::Moment;
use std::alloc::Global;
use std::marker::Model;

/// What is kept of all sessions: what each one's own statements said, and what was reached in each registration. It
/// stands for a list of statements, each of which is voided or not.
#[derive(Drop)]
pub struct Sessions {
    own: SaidBySession,
    reached: ReachedByRegistration,
}

impl Model for Sessions {
    ghost use Rattle.cmi5_running_sessions.specs.Kept.{SeenSessions};

    ghost Value = { SeenSessions };

    ghost view = { λ s. record { own = s.own; reached = s.reached } };
}

impl Sessions {
    /// That of no statements.
    pub fn new(alloc: Global) -> Sessions
        ensures own { result.own ≡ [] }
        ensures reached { result.reached ≡ [] }
    {
        Sessions {
            own: SaidBySession::new(alloc),
            reached: ReachedByRegistration::new(alloc),
        }
    }

    // ---- slots

    /// Makes the slots that statements need. Where memory runs out in the middle, `release` takes back what was made.
    pub fn ready(&mut self, statements: &[StoredStatement]) -> Result<(), Memory>
        ensures made { MakesSlots statements.now self.old self.new }
        ensures ready { OnOk result (HasSlotsForEach self.new statements.now) }
    {
        for statement in statements {
            self.ready_one(statement)?;
        }
        Ok(())
    }

    fn ready_one(&mut self, statement: &StoredStatement) -> Result<(), Memory>
        ensures made { MakesSlots (statement.now ∷ []) self.old self.new }
        ensures kept { KeepsSlots self.old self.new }
        ensures there { OnOk result (HasSlotsFor self.new statement.now) }
    {
        self.own.ready(statement)?;
        self.reached.ready(statement)
    }

    /// Takes back the slots that were made for statements which don't come. It takes no memory.
    pub fn release(&mut self, statements: &[StoredStatement])
        ensures { TakesSlotsBack statements.now self.old self.new }
    {
        for statement in statements {
            self.release_one(statement);
        }
    }

    fn release_one(&mut self, statement: &StoredStatement)
        ensures { TakesSlotsBack (statement.now ∷ []) self.old self.new }
    {
        self.own.release(statement);
        self.reached.release(statement);
    }

    // ---- statements

    /// Takes a statement in for which there are slots. It can be voided already, by one that came before it. It takes
    /// no memory.
    pub fn install(&mut self, statement: &StoredStatement, voided: bool)
        requires { HasSlotsFor self.old statement.now }
        ensures stands { (those : List MarkedStatement) → length those + 1 < 2 ^ 64 → SaidStandsFor self.old those
            → SaidStandsFor self.new (those ++ mark statement.now voided ∷ []) }
        ensures slots { KeepsSlots self.old self.new }
    {
        if voided {
            self.install_voided(statement);
        } else {
            self.install_counting(statement);
        }
    }

    fn install_voided(&mut self, statement: &StoredStatement)
        requires { HasSlotsFor self.old statement.now }
        ensures stands { (those : List MarkedStatement) → SaidStandsFor self.old those
            → SaidStandsFor self.new (those ++ mark statement.now true ∷ []) }
        ensures slots { KeepsSlots self.old self.new }
    {
        self.own.install(statement);
    }

    fn install_counting(&mut self, statement: &StoredStatement)
        requires { HasSlotsFor self.old statement.now }
        ensures stands { (those : List MarkedStatement) → length those + 1 < 2 ^ 64 → SaidStandsFor self.old those
            → SaidStandsFor self.new (those ++ mark statement.now false ∷ []) }
        ensures slots { KeepsSlots self.old self.new }
    {
        self.own.install(statement);
        self.reached.install(statement);
    }

    /// Notes that a statement which was taken in is voided. It takes no memory.
    pub fn void(&mut self, statement: &StoredStatement)
        ensures stands { (before behind : List MarkedStatement)
            → SaidStandsFor self.old (before ++ mark statement.now false ∷ behind)
            → SaidStandsFor self.new (before ++ mark statement.now true ∷ behind) }
        ensures slots { KeepsSlots self.old self.new }
    {
        self.reached.void(statement);
    }

    // ---- what follows

    /// A session as the rules on its statements see it. Its token was fetched or not, and it was abandoned or not.
    pub fn view<'a>(&self, launch: &'a Launch, fetched: bool, abandoned: bool) -> SessionView<'a>
        ensures { (statements : List SpecStatement) → SaidStandsFor self.now (marked statements)
            → seen result ≡ view_of launch.now fetched abandoned statements }
    {
        let own = self.own.get(&launch.session);
        let reached = self
            .reached
            .get(&launch.registration, launch.activity.text());
        SessionView {
            launch,
            phase: phase_by(own, fetched, abandoned),
            completed: 0 < reached.completed,
            passed: 0 < reached.passed,
        }
    }

    /// Whether the session said that it is terminated.
    pub fn has_ended(&self, session: &Id) -> bool
        ensures { (those : List MarkedStatement) → SaidStandsFor self.now those
            → result ≡ has_own session.now terminated (statements_of those) }
    {
        self.own.get(session).ended
    }

    /// When the session said that it is initialized, if it did.
    pub fn began_at(&self, session: &Id) -> Option<Moment>
        ensures { (those : List MarkedStatement) → SaidStandsFor self.now those
            → result ≡ began_at session.now (statements_of those) }
    {
        self.own.get(session).began
    }

    /// When the session said something last, or that moment if it said nothing.
    pub fn last_own(&self, session: &Id, moment: Moment) -> Moment
        ensures { (those : List MarkedStatement) → SaidStandsFor self.now those
            → result ≡ last_own session.now moment (statements_of those) }
    {
        match self.own.get(session).last {
            Some(last) => last,
            None => moment,
        }
    }
}

// How far the session has come that said that.
fn phase_by(said: OwnSaid, fetched: bool, abandoned: bool) -> Phase
    ensures { result ≡ phase_by said fetched abandoned }
{
    if abandoned {
        return Phase::Abandoned;
    }
    if said.ended {
        return Phase::Terminated;
    }
    if said.began.is_some() {
        return Phase::Initialized;
    }
    if fetched {
        Phase::Fetched
    } else {
        Phase::Launched
    }
}
