// What is told of sessions and of registrations. Of what is held it is told without going through the statements.
ghost use Rattle.std.specs.Prelude.{◌≡◌, ◌==◌, ◌<◌, ◌++◌, IfOk, Some, length};
ghost use Rattle.cmi5_running_sessions.specs.Cmi5LaunchNames.{terminated, waived};
ghost use Rattle.cmi5_running_verdicts.specs.Running.{TalliesStandFor};
ghost use Rattle.cmi5_running_sessions.specs.Cmi5SessionMarked.{marked};
ghost use Rattle.cmi5_running_sessions.specs.Cmi5SessionMoments.{began_at, last_own};
ghost use Rattle.cmi5_running_sessions.specs.Cmi5SessionOwn.{has_own};
ghost use Rattle.cmi5_running_sessions.specs.Cmi5SessionViews.{seen as seen_session, view_of};
ghost use Rattle.cmi5_running_verdicts.specs.Cmi5VerdictNodes.{activity_of_node, owed, seen, verdicts};
ghost use Rattle.cmi5_running_verdicts.specs.Cmi5VerdictStatements.{all_of};
ghost use Rattle.cmi5_running_verdicts.specs.Cmi5VerdictUnits.{stands};
ghost use Rattle.lrs_parts.specs.Progress.{enrolment_in, number_held, number_in};

use crate::Parts;
use cmi5_course::Launch;
use cmi5_running_sessions::SessionView;
use cmi5_running_verdicts::{Enrolment, Statements, owed, verdicts, waived};
use lrs_json::Memory;
use lrs_names::Id;
use lrs_state::{HeldRegistration, Registrations};
use lrs_time::Moment;
use std::alloc::Global;
use xapi_statement::StoredStatement;

// ---- sessions

impl Parts {
    /// The session of a launch, after the statements that are held. Its token was fetched or not, and it was abandoned
    /// or not.
    pub fn session_view<'a>(
        &self,
        launch: &'a Launch,
        fetched: bool,
        abandoned: bool,
    ) -> SessionView<'a>
        ensures { seen_session result ≡ view_of launch.now fetched abandoned self.now.statements.held }
    {
        self.progress.sessions.view(launch, fetched, abandoned)
    }

    /// Whether the session said that it is terminated.
    pub fn has_ended(&self, session: &Id) -> bool
        ensures { result ≡ has_own session.now terminated self.now.statements.held }
    {
        self.progress.sessions.has_ended(session)
    }

    /// When the session said that it is initialized, if it did.
    pub fn began_at(&self, session: &Id) -> Option<Moment>
        ensures { result ≡ began_at session.now self.now.statements.held }
    {
        self.progress.sessions.began_at(session)
    }

    /// The moment of the last of the session's own statements, or that one if it has none.
    pub fn last_own(&self, session: &Id, moment: Moment) -> Moment
        ensures { result ≡ last_own session.now moment self.now.statements.held }
    {
        self.progress.sessions.last_own(session, moment)
    }
}

// ---- registrations

impl Parts {
    /// Whether each node of the registration's edition is satisfied, in the order of the text. The registration may be
    /// one that is yet to be held.
    pub fn verdicts(
        &self,
        alloc: Global,
        registration: &HeldRegistration,
        enrolment: &Enrolment<'_>,
    ) -> Result<Vec<bool>, Memory>
        requires enrolled { enrolment_in self.now.founding self.now.learning.editions.held registration.now
            ≡ Some (seen enrolment.now) }
        ensures { IfOk result (λ told. told.items ≡ verdicts (seen enrolment.now) self.now.statements.held) }
    {
        match number_held(&self.learning.registrations, registration) {
            Some(number) => self.progress.running.verdicts(alloc, number),
            None => self.verdicts_by_fold(alloc, enrolment),
        }
    }

    /// Whether the unit of that number is waived in the registration: a statement stands that says so.
    pub fn is_waived(
        &self,
        alloc: Global,
        registration: &HeldRegistration,
        enrolment: &Enrolment<'_>,
        index: u32,
    ) -> Result<bool, Memory>
        requires enrolled { enrolment_in self.now.founding self.now.learning.editions.held registration.now
            ≡ Some (seen enrolment.now) }
        requires index { index < length enrolment.now.nodes.now }
        ensures { IfOk result (λ told. told ≡ stands self.now.statements.held enrolment.now.registration.now
            (activity_of_node (seen enrolment.now) index) waived) }
    {
        match number_held(&self.learning.registrations, registration) {
            Some(number) => Ok(self.progress.running.is_waived(number, index)),
            None => self.waived_by_fold(alloc, enrolment, index),
        }
    }

    /// The numbers of the nodes of which it is to be said behind these new statements that they are satisfied, in the
    /// order in which it is said.
    pub fn owed(
        &self,
        alloc: Global,
        registration: &HeldRegistration,
        enrolment: &Enrolment<'_>,
        new: &[StoredStatement],
    ) -> Result<Vec<u32>, Memory>
        requires enrolled { enrolment_in self.now.founding self.now.learning.editions.held registration.now
            ≡ Some (seen enrolment.now) }
        ensures { IfOk result (λ indices.
            indices.items ≡ owed (seen enrolment.now) (self.now.statements.held ++ new.now)) }
    {
        match number_held(&self.learning.registrations, registration) {
            Some(number) => self.owed_by_tallies(alloc, number, enrolment, new),
            None => self.owed_by_fold(alloc, enrolment, new),
        }
    }

    // ---- of one that is held

    fn owed_by_tallies(
        &self,
        alloc: Global,
        number: u32,
        enrolment: &Enrolment<'_>,
        new: &[StoredStatement],
    ) -> Result<Vec<u32>, Memory>
        requires { TalliesStandFor self.now.progress.running (marked self.now.statements.held) number
            (seen enrolment.now) }
        ensures { IfOk result (λ indices.
            indices.items ≡ owed (seen enrolment.now) (self.now.statements.held ++ new.now)) }
    {
        let statements = self.behind_held(new);
        self.progress
            .running
            .owed(alloc, number, &statements, enrolment)
    }

    // ---- of one that is yet to be held: the statements of the registration are gone through

    fn verdicts_by_fold(
        &self,
        alloc: Global,
        enrolment: &Enrolment<'_>,
    ) -> Result<Vec<bool>, Memory>
        ensures { IfOk result (λ told. told.items ≡ verdicts (seen enrolment.now) self.now.statements.held) }
    {
        verdicts(alloc, &self.held_alone(), enrolment)
    }

    fn waived_by_fold(
        &self,
        alloc: Global,
        enrolment: &Enrolment<'_>,
        index: u32,
    ) -> Result<bool, Memory>
        ensures { IfOk result (λ told. told ≡ stands self.now.statements.held enrolment.now.registration.now
            (activity_of_node (seen enrolment.now) index) waived) }
    {
        waived(alloc, &self.held_alone(), enrolment, index)
    }

    fn owed_by_fold(
        &self,
        alloc: Global,
        enrolment: &Enrolment<'_>,
        new: &[StoredStatement],
    ) -> Result<Vec<u32>, Memory>
        ensures { IfOk result (λ indices.
            indices.items ≡ owed (seen enrolment.now) (self.now.statements.held ++ new.now)) }
    {
        owed(alloc, &self.behind_held(new), enrolment)
    }

    // The statements that are held, with none behind them.
    fn held_alone(&self) -> Statements<'_>
        ensures { all_of result ≡ self.now.statements.held }
    {
        Statements {
            held: &self.statements,
            new: &[],
        }
    }

    // The statements that are held, and these behind them.
    fn behind_held<'a>(&'a self, new: &'a [StoredStatement]) -> Statements<'a>
        ensures held { result.held.now.held ≡ self.now.statements.held }
        ensures all { all_of result ≡ self.now.statements.held ++ new.now }
    {
        Statements {
            held: &self.statements,
            new,
        }
    }
}

// The number of a registration, if it is held and the first of its id.
fn number_held(registrations: &Registrations, registration: &HeldRegistration) -> Option<u32>
    ensures { result ≡ number_held registration.now registrations.now.held }
{
    match registrations.index_of(&registration.id) {
        Some(number) => number_in(registrations, registration, number),
        None => None,
    }
}

// That number, if the one there is in the same edition.
fn number_in(
    registrations: &Registrations,
    registration: &HeldRegistration,
    number: u32,
) -> Option<u32>
    ensures { result ≡ number_in registration.now registrations.now.held number }
{
    match registrations.get(number) {
        Some(held) => {
            if is_in_same_edition(held, registration) {
                Some(number)
            } else {
                None
            }
        }
        None => None,
    }
}

fn is_in_same_edition(held: &HeldRegistration, registration: &HeldRegistration) -> bool
    ensures { result ≡ (held.now.edition == registration.now.edition) }
{
    held.edition == registration.edition
}
