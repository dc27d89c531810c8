// The twenty rules on what may be said of a learner, by their numbers. Of several that a statement breaks the least is
// told.
ghost use Rattle.std.specs.Prelude.{◌≡◌, None, Some, MatchResult, codes, option_map};
ghost use Rattle.cmi5_session.specs.Rules.{begins_again, broken_by_earlier, broken_by_phase, broken_by_values};
ghost use Rattle.cmi5_session.specs.Rules.{broken_by_verb};
ghost use Rattle.cmi5_session.specs.Rules.{broken_defined, broken_outside, broken_rule, broken_spoken, fits_mastery, is_normal};
ghost use Rattle.cmi5_session.specs.Rules.{is_number_of, is_of_learner, is_truth, names_session, quotes_mastery, tells_duration};
ghost use Rattle.cmi5_session.specs.Rules.{tells_result};
ghost use Rattle.cmi5_session.specs.Views.{seen};
ghost use Rattle.lrs_json.specs.View.{view};
ghost use Rattle.lrs_names.specs.Ids.{id_text};
ghost use Rattle.lrs_names.specs.Members.{is_word};
ghost use Rattle.cmi5_launch.specs.XapiStatementStatement.{has_context_activity};

use crate::defined::{is_cmi5_defined, says};
use crate::verb::Verb;
use crate::view::{is_about, is_that_id};
use crate::{Phase, SessionView};
use cmi5_course::{Launch, Mode};
use cmi5_launch::names::{INITIALIZED, MASTERY_SCORE, MOVE_ON_CATEGORY, SESSION_ID};
use cmi5_launch::{
    extension_of, has_context_activity, has_duration, is_actor, is_voiding, registration_of,
    result_boolean, scaled_spelling, verb_of,
};
use lrs_json::{Number, Tree, utf8_text};
use lrs_names::{Id, Iri, is_word};
use xapi_values::numbers::{are_equal, is_below, is_not_above, spelling_of};

/// Why a statement may not be kept: the least of the rules that it breaks.
#[derive(Clone, Copy, Debug, PartialEq, Eq)]
pub struct Forbidden {
    pub rule: u8,
}

/// Holds a statement of a session against C2 to C20. What the statements so far say is in the view of the session.
pub fn permitted(session: &SessionView<'_>, statement: &Tree) -> Result<(), Forbidden>
    ensures { MatchResult result (λ u. broken_rule (seen session.now) (view statement.now) ≡ None)
        (λ f. broken_rule (seen session.now) (view statement.now) ≡ Some f.rule) }
{
    unless_broken(broken_rule(session, statement))
}

/// Holds a statement of a caller who is no session against C1 and C2.
pub fn permitted_outside(admin: bool, statement: &Tree) -> Result<(), Forbidden>
    ensures { MatchResult result (λ u. broken_outside admin (view statement.now) ≡ None)
        (λ f. broken_outside admin (view statement.now) ≡ Some f.rule) }
{
    unless_broken(broken_outside(admin, statement))
}

fn unless_broken(rule: Option<u8>) -> Result<(), Forbidden>
    ensures { MatchResult result (λ u. rule ≡ None) (λ f. rule ≡ Some f.rule) }
{
    match rule {
        Some(rule) => Err(Forbidden { rule }),
        None => Ok(()),
    }
}

fn broken_outside(admin: bool, statement: &Tree) -> Option<u8>
    ensures { result ≡ broken_outside admin (view statement.now) }
{
    if is_cmi5_defined(statement) {
        return Some(1);
    }
    if is_voiding(statement) && !admin {
        return Some(2);
    }
    None
}

// ---- every statement of a session

fn broken_rule(session: &SessionView<'_>, statement: &Tree) -> Option<u8>
    ensures { result ≡ broken_rule (seen session.now) (view statement.now) }
{
    let launch = session.launch;
    if is_voiding(statement) {
        return Some(2);
    }
    if !is_of_learner(launch, statement) {
        return Some(3);
    }
    if !is_that_id(&launch.registration, registration_of(statement)) {
        return Some(4);
    }
    if let Some(rule) = broken_by_phase(session.phase, statement) {
        return Some(rule);
    }
    if is_cmi5_defined(statement) {
        return broken_defined(session, Verb::named(verb_of(statement)), statement);
    }
    None
}

// Whether its actor is the learner for whom the unit was launched.
#[tactic(auto, using(crate::proofs::Identifying::same_test))]
fn is_of_learner(launch: &Launch, statement: &Tree) -> bool
    ensures { result ≡ is_of_learner launch.now (view statement.now) }
{
    is_actor(statement, &launch.actor)
}

fn broken_by_phase(phase: Phase, statement: &Tree) -> Option<u8>
    ensures { result ≡ broken_by_phase phase (view statement.now) }
{
    match phase {
        Phase::Abandoned => Some(5),
        Phase::Terminated => Some(6),
        Phase::Initialized => None,
        Phase::Fetched | Phase::Launched => {
            if says(INITIALIZED, statement) {
                None
            } else {
                Some(7)
            }
        }
    }
}

// ---- those that cmi5 defines

fn broken_defined(session: &SessionView<'_>, verb: Option<Verb>, statement: &Tree) -> Option<u8>
    ensures { result ≡ broken_defined (seen session.now) verb (view statement.now) }
{
    match verb {
        Some(verb) => broken_spoken(session, verb, statement),
        None => Some(8),
    }
}

fn broken_spoken(session: &SessionView<'_>, verb: Verb, statement: &Tree) -> Option<u8>
    ensures { result ≡ broken_spoken (seen session.now) verb (view statement.now) }
{
    let launch = session.launch;
    if !is_about(&launch.activity, statement) {
        return Some(9);
    }
    if !names_session(&launch.session, statement) {
        return Some(10);
    }
    if !names_publisher(&launch.publisher, statement) {
        return Some(11);
    }
    broken_by_verb(session, verb, statement)
}

// Whether the grouping activities hold the id that the unit's publisher gave it.
fn names_publisher(publisher: &Iri, statement: &Tree) -> bool
    ensures { result ≡ has_context_activity (codes "grouping") publisher.now (view statement.now) }
{
    has_context_activity(statement, "grouping", publisher.text().as_str())
}

// Whether the extension of its context spells the session's id, in lower case.
fn names_session(session: &Id, statement: &Tree) -> bool
    ensures { result ≡ names_session session.now (view statement.now) }
{
    match extension_of(statement, SESSION_ID) {
        Some(told) => is_id(session, told),
        None => false,
    }
}

fn is_id(id: &Id, told: &Tree) -> bool
    ensures { result ≡ is_word (id_text id.now) (view told.now) }
{
    is_word(told, utf8_text(&id.text()))
}

fn broken_by_verb(session: &SessionView<'_>, verb: Verb, statement: &Tree) -> Option<u8>
    ensures { result ≡ broken_by_verb (seen session.now) verb (view statement.now) }
{
    if begins_again(session.phase, verb) {
        return Some(12);
    }
    if verb.is_result() && !is_normal(session.launch.mode) {
        return Some(13);
    }
    if verb.is_result() && !has_context_activity(statement, "category", MOVE_ON_CATEGORY) {
        return Some(14);
    }
    if !tells_result(verb, statement) {
        return Some(15);
    }
    if let Some(rule) = broken_by_earlier(session, verb) {
        return Some(rule);
    }
    broken_by_values(&session.launch.mastery, verb, statement)
}

// C18 to C20.
fn broken_by_values(mastery: &Option<Number>, verb: Verb, statement: &Tree) -> Option<u8>
    ensures { result ≡ broken_by_values mastery.now verb (view statement.now) }
{
    if !fits_mastery(mastery, verb, statement) {
        return Some(18);
    }
    if !quotes_mastery(mastery, statement) {
        return Some(19);
    }
    if !tells_duration(verb, statement) {
        return Some(20);
    }
    None
}

fn begins_again(phase: Phase, verb: Verb) -> bool
    ensures { result ≡ begins_again phase verb }
{
    matches!((phase, verb), (Phase::Initialized, Verb::Initialized))
}

fn is_normal(mode: Mode) -> bool
    ensures { result ≡ is_normal mode }
{
    match mode {
        Mode::Normal => true,
        Mode::Browse | Mode::Review => false,
    }
}

fn is_truth(expected: bool, told: Option<bool>) -> bool
    ensures { result ≡ is_truth expected told }
{
    match told {
        Some(told) => if expected { told } else { !told },
        None => false,
    }
}

// Whether the result says what the verb says.
fn tells_result(verb: Verb, statement: &Tree) -> bool
    ensures { result ≡ tells_result verb (view statement.now) }
{
    match verb {
        Verb::Completed => is_truth(true, result_boolean(statement, "completion")),
        Verb::Passed => is_truth(true, result_boolean(statement, "success")),
        Verb::Failed => is_truth(false, result_boolean(statement, "success")),
        Verb::Initialized | Verb::Terminated => true,
    }
}

fn broken_by_earlier(session: &SessionView<'_>, verb: Verb) -> Option<u8>
    ensures { result ≡ broken_by_earlier (seen session.now) verb }
{
    match verb {
        Verb::Completed => if session.completed { Some(16) } else { None },
        Verb::Passed => if session.passed { Some(17) } else { None },
        Verb::Initialized | Verb::Failed | Verb::Terminated => None,
    }
}

fn spelled(mastery: &Option<Number>) -> Option<&[u8]>
    ensures { option_map (λ s. s.now) result ≡ mastery.now }
{
    match mastery {
        Some(spelling) => Some(spelling.as_bytes()),
        None => None,
    }
}

// Whether the scaled score is one with which a learner passes or fails the unit.
fn fits_mastery(mastery: &Option<Number>, verb: Verb, statement: &Tree) -> bool
    ensures { result ≡ fits_mastery mastery.now verb (view statement.now) }
{
    match verb {
        Verb::Passed => is_not_above(spelled(mastery), scaled_spelling(statement)),
        Verb::Failed => is_below(scaled_spelling(statement), spelled(mastery)),
        Verb::Initialized | Verb::Completed | Verb::Terminated => true,
    }
}

fn quotes_mastery(mastery: &Option<Number>, statement: &Tree) -> bool
    ensures { result ≡ quotes_mastery mastery.now (view statement.now) }
{
    match extension_of(statement, MASTERY_SCORE) {
        Some(told) => is_number_of(mastery, told),
        None => true,
    }
}

// Whether it is the number that the unit has.
fn is_number_of(mastery: &Option<Number>, told: &Tree) -> bool
    ensures { result ≡ is_number_of mastery.now (view told.now) }
{
    match (mastery, spelling_of(told)) {
        (Some(mastery), Some(spelling)) => are_equal(spelling, mastery.as_bytes()),
        _ => false,
    }
}

fn tells_duration(verb: Verb, statement: &Tree) -> bool
    ensures { result ≡ tells_duration verb (view statement.now) }
{
    match verb {
        Verb::Terminated => has_duration(statement),
        Verb::Initialized | Verb::Completed | Verb::Passed | Verb::Failed => true,
    }
}
