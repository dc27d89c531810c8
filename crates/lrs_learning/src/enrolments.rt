// Enrolments: a learner is enrolled in an edition of a course, and a registration comes of it.
ghost use Rattle.std.specs.Prelude.{◌≡◌, [], IfOk, IsTrue, Some};
ghost use Rattle.lrs_command.specs.declared.who.Who.{Who as SpecWho};
ghost use Rattle.lrs_sessions.specs.LrsHistoryDeskEffects.{coming, enrolling, made_session};
ghost use Rattle.lrs_sessions.specs.LrsHistoryEnrolments.{enrolled_as};
ghost use Rattle.lrs_sessions.specs.LrsHistoryMade.{owed_made};
ghost use Rattle.lrs_ids.specs.IdSupply.{left_of};
ghost use Rattle.lrs_learning.specs.Occasions.{occasion_at};
ghost use Rattle.lrs_sessions.specs.LrsStateCourses.{index_meant};
ghost use Rattle.lrs_sessions.specs.LrsStateLearners.{is_learner};
ghost use Rattle.lrs_sessions.specs.LrsPartsParts.{state_of};
ghost use Rattle.lrs_sessions.specs.LrsStateState.{no_change, used_in};
ghost use Rattle.lrs_sessions.specs.LrsStateAcceptanceAcceptanceTheVariants as acceptance;

use crate::ids::first_two;
use lrs_agents::Agent;
use lrs_ids::IdSupply;
use lrs_json::{Items, Memory};
use lrs_names::{Draw, Id, Iri};
use lrs_parts::{
    Acceptance, Effect, HeldRegistration, Learner, MadeSession, MadeSessionsChange, Parts,
    RegistrationsChange, index_meant,
};
use lrs_record::Moment;
use lrs_sessions::{add_owed, enrolled_as};
use std::alloc::Global;
use xapi_statement::StoredStatement;

/// Enrols a learner in the course of that id: in the edition of that number, or in the newest where none is named, if
/// there is one. What is satisfied at once is said.
pub fn enrolling(
    alloc: Global,
    parts: &Parts,
    moment: Moment,
    draw: &Draw,
    course: Iri,
    actor: Agent,
    edition: Option<u32>,
) -> Result<Effect, Memory>
    requires { IsTrue (is_learner actor) }
    ensures { IfOk result (λ made. (by : SpecWho) → made
        ≡ enrolling (state_of parts.now) (occasion_at (state_of parts.now) by moment draw.now) actor
        (index_meant course edition (state_of parts.now).courses (state_of parts.now).editions)) }
{
    let learning = &parts.learning;
    match index_meant(
        &learning.courses,
        &learning.editions,
        course.text(),
        edition,
    ) {
        Ok(Some(index)) => enrol_in(alloc, parts, moment, draw, index, Learner::of(actor)),
        Ok(None) => {
            drop(actor);
            Ok(Effect::no_change(alloc, moment))
        }
        Err(refused) => {
            drop(actor);
            Err(refused)
        }
    }
}

// In the edition of that index.
fn enrol_in(
    alloc: Global,
    parts: &Parts,
    moment: Moment,
    draw: &Draw,
    edition: u32,
    actor: Learner,
) -> Result<Effect, Memory>
    ensures { IfOk result (λ made. (by : SpecWho) → made
        ≡ enrolling (state_of parts.now) (occasion_at (state_of parts.now) by moment draw.now) actor (Some edition)) }
{
    match first_two(alloc, parts, draw) {
        Ok(ids) => enrol_as(
            alloc,
            parts,
            moment,
            HeldRegistration {
                id: ids.first,
                edition,
                actor,
            },
            ids.second,
            ids.left,
        ),
        Err(refused) => {
            drop(actor);
            Err(refused)
        }
    }
}

// Under that registration. What is owed is said in that session, under the ids that are left.
fn enrol_as(
    alloc: Global,
    parts: &Parts,
    moment: Moment,
    registration: HeldRegistration,
    session: Id,
    supply: IdSupply,
) -> Result<Effect, Memory>
    ensures { IfOk result (λ made. made ≡ record (no_change moment) {
      statements = owed_made (state_of parts.now) session (left_of (used_in (state_of parts.now)) supply) moment []
          (enrolled_as (state_of parts.now) registration);
      registrations = coming registration;
      made_sessions = made_session session
          (owed_made (state_of parts.now) session (left_of (used_in (state_of parts.now)) supply) moment []
          (enrolled_as (state_of parts.now) registration));
      acceptance = acceptance.Registration registration.id;
    }) }
{
    match owed_at_once(alloc, parts, moment, &registration, &session, supply) {
        Ok(owed) => Ok(enrolled(alloc, moment, registration, session, owed)),
        Err(refused) => {
            drop(registration);
            Err(refused)
        }
    }
}

// What is owed to a registration before anything was said in it.
fn owed_at_once(
    alloc: Global,
    parts: &Parts,
    moment: Moment,
    registration: &HeldRegistration,
    session: &Id,
    supply: IdSupply,
) -> Result<Vec<StoredStatement>, Memory>
    ensures { IfOk result (λ owed. owed.items ≡ owed_made (state_of parts.now) session.now
        (left_of (used_in (state_of parts.now)) supply) moment [] (enrolled_as (state_of parts.now) registration.now)) }
{
    let mut supply = supply;
    let mut made = Vec::new(alloc);
    let enrolled = enrolled_as(parts, registration);
    add_owed(
        alloc,
        parts,
        enrolled.as_ref(),
        session,
        moment,
        &mut supply,
        &mut made,
    )?;
    Ok(made)
}

fn enrolled(
    alloc: Global,
    moment: Moment,
    registration: HeldRegistration,
    session: Id,
    owed: Vec<StoredStatement>,
) -> Effect
    ensures { result ≡ record (no_change moment) {
      statements = owed.items;
      registrations = coming registration;
      made_sessions = made_session session owed.items;
      acceptance = acceptance.Registration registration.id;
    } }
{
    let mut effect = Effect::no_change(alloc, moment);
    effect.acceptance = Acceptance::Registration(registration.id);
    effect.made_sessions = session_if(session, owed.as_slice());
    effect.statements = Items::from_vec(owed);
    effect.registrations = RegistrationsChange::of_new(registration);
    effect
}

// The session id comes with what is said, if anything is.
fn session_if(session: Id, said: &[StoredStatement]) -> MadeSessionsChange
    ensures { result ≡ made_session session said.now }
{
    match said.first() {
        Some(_) => MadeSessionsChange::of_new(MadeSession { id: session }),
        None => MadeSessionsChange::none(),
    }
}
