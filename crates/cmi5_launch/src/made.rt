ghost use Rattle.std.specs.Prelude.{◌≡◌, ◌++◌, IfOk, IsTrue, None, OnOk, Some, map};
ghost use Rattle.lrs_agents.specs.Identifiers.{is_identifier};
ghost use Rattle.lrs_json.specs.View.{member_view, view};
ghost use Rattle.lrs_names.specs.Ids.{id_of, id_text};
ghost use Rattle.xapi_statement.specs.XapiRulesRules.{broken_rule};
ghost use Rattle.cmi5_launch.specs.Made.{abandoned_result, categories_json, context_activities, context_json, definition_json, span_text, extensions_json, in_english, launched_extensions, made_json, object_json, reason_json, result_given, said, type_of, verb_json, waived_result};

use crate::activities;
use crate::data::{push_id, push_number, session_alone};
use crate::names::{
    ABANDONED, BLOCK_TYPE, CMI5_CATEGORY, COURSE_TYPE, LAUNCH_MODE, LAUNCH_PARAMETERS, LAUNCH_URL,
    LAUNCHED, MASTERY_SCORE, MOVE_ON, MOVE_ON_CATEGORY, REASON, SATISFIED, SESSION_ID, WAIVED,
};
use cmi5_course::{Mode, NodeKind, Reason, Unit};
use lrs_agent_texts::agent_tree;
use lrs_agent_texts::building::{push, push_given, push_words, whole};
use lrs_agents::Agent;
use lrs_json::{Items, Member, Memory, Tree, utf8_text};
use lrs_names::{Id, Iri};
use lrs_time::{LONGEST_SPAN, seconds_text};
use std::alloc::Global;
use xapi_statement::Statement;

/// What the store says of its own, by the kind of statement.
#[derive(Clone, Copy)]
pub enum Made<'a> {
    /// That a unit was launched (cmi5 Quartz, section 9.3.1).
    Launched { mode: Mode, unit: &'a Unit },
    /// That the session of a unit was abandoned (section 9.3.6), and how long after its beginning its last statement was
    /// stored, in milliseconds.
    Abandoned { ms: u64, unit: &'a Unit },
    /// That a unit was waived (section 9.3.7).
    Waived { reason: Reason, unit: &'a Unit },
    /// That a block or a course was satisfied (section 9.3.9). Of a unit this is never said.
    Satisfied { kind: NodeKind },
}

/// The statement that the store makes: of that actor, on the Activity under which it knows the unit, the block or the
/// course, in that registration and session. `publisher` is the id that its publisher gave it.
#[tactic(auto, unfolding(xapi_statement::specs::Statement::is_statement))]
pub fn made_statement(
    alloc: Global,
    made: &Made<'_>,
    actor: &Agent,
    activity: &Iri,
    publisher: &Iri,
    registration: &Id,
    session: &Id,
) -> Result<Statement, Memory>
    requires { IsTrue (is_identifier actor.now.ifi) }
    ensures { IfOk result (λ statement. view statement.tree
        ≡ made_json made.now actor.now activity.now publisher.now registration.now session.now) }
{
    let tree = made_tree(
        alloc,
        made,
        actor,
        activity,
        publisher,
        registration,
        session,
    )?;
    Ok(Statement::of(tree))
}

fn made_tree(
    alloc: Global,
    made: &Made<'_>,
    actor: &Agent,
    activity: &Iri,
    publisher: &Iri,
    registration: &Id,
    session: &Id,
) -> Result<Tree, Memory>
    requires { IsTrue (is_identifier actor.now.ifi) }
    ensures value { IfOk result (λ tree. view tree
        ≡ made_json made.now actor.now activity.now publisher.now registration.now session.now) }
    ensures unbroken { IfOk result (λ tree. broken_rule (view tree) ≡ None) }
{
    let activity = activity.text();
    let publisher = publisher.text();
    let mut built = Items::new(alloc);
    push("actor", agent_tree(alloc, actor)?, &mut built)?;
    push("verb", verb_of(alloc, made)?, &mut built)?;
    push(
        "object",
        object_of(alloc, made, activity.as_str())?,
        &mut built,
    )?;
    let context = context_of(alloc, made, publisher.as_str(), registration, session)?;
    push("context", context, &mut built)?;
    push_result(alloc, made, &mut built)?;
    Ok(whole(built))
}

// ---- verbs

fn verb_of(alloc: Global, made: &Made<'_>) -> Result<Tree, Memory>
    ensures { IfOk result (λ tree. view tree ≡ verb_json (said made.now).verb (said made.now).word) }
{
    match made {
        Made::Launched { .. } => verb(alloc, LAUNCHED, "launched"),
        Made::Abandoned { .. } => verb(alloc, ABANDONED, "abandoned"),
        Made::Waived { .. } => verb(alloc, WAIVED, "waived"),
        Made::Satisfied { .. } => verb(alloc, SATISFIED, "satisfied"),
    }
}

fn verb(alloc: Global, id: &str, word: &str) -> Result<Tree, Memory>
    ensures { IfOk result (λ tree. view tree ≡ verb_json id.now word.now) }
{
    let mut built = Items::new(alloc);
    push_words("id", id, &mut built)?;
    push("display", in_english(alloc, word)?, &mut built)?;
    Ok(whole(built))
}

fn in_english(alloc: Global, word: &str) -> Result<Tree, Memory>
    ensures { IfOk result (λ tree. view tree ≡ in_english word.now) }
{
    let mut built = Items::new(alloc);
    push_words("en", word, &mut built)?;
    Ok(whole(built))
}

// ---- objects

fn object_of(alloc: Global, made: &Made<'_>, activity: &str) -> Result<Tree, Memory>
    ensures { IfOk result (λ tree. view tree ≡ object_json activity.now (said made.now).activity_type) }
{
    match made {
        Made::Satisfied { kind } => object_of_kind(alloc, *kind, activity),
        Made::Launched { .. } | Made::Abandoned { .. } | Made::Waived { .. } => {
            activities::activity(alloc, activity)
        }
    }
}

// The Activity of a course or a block, with its type; of a unit none is told.
fn object_of_kind(alloc: Global, kind: NodeKind, activity: &str) -> Result<Tree, Memory>
    ensures { IfOk result (λ tree. view tree ≡ object_json activity.now (type_of kind)) }
{
    match kind {
        NodeKind::Course => typed(alloc, activity, COURSE_TYPE),
        NodeKind::Block => typed(alloc, activity, BLOCK_TYPE),
        NodeKind::Unit => activities::activity(alloc, activity),
    }
}

fn typed(alloc: Global, activity: &str, activity_type: &str) -> Result<Tree, Memory>
    ensures { IfOk result (λ tree. view tree ≡ object_json activity.now (Some activity_type.now)) }
{
    let mut built = Items::new(alloc);
    push_words("objectType", "Activity", &mut built)?;
    push_words("id", activity, &mut built)?;
    push("definition", definition(alloc, activity_type)?, &mut built)?;
    Ok(whole(built))
}

fn definition(alloc: Global, activity_type: &str) -> Result<Tree, Memory>
    ensures { IfOk result (λ tree. view tree ≡ definition_json activity_type.now) }
{
    let mut built = Items::new(alloc);
    push_words("type", activity_type, &mut built)?;
    Ok(whole(built))
}

// ---- contexts

fn context_of(
    alloc: Global,
    made: &Made<'_>,
    publisher: &str,
    registration: &Id,
    session: &Id,
) -> Result<Tree, Memory>
    ensures value { IfOk result (λ tree. view tree
        ≡ context_json (said made.now) publisher.now registration.now session.now) }
    ensures id { id_of (id_text registration.now) ≡ Some registration.now }
{
    let mut built = Items::new(alloc);
    push_id("registration", registration, &mut built)?;
    push(
        "contextActivities",
        context_activities(alloc, made, publisher)?,
        &mut built,
    )?;
    push(
        "extensions",
        extensions_of(alloc, made, session)?,
        &mut built,
    )?;
    Ok(whole(built))
}

fn context_activities(alloc: Global, made: &Made<'_>, publisher: &str) -> Result<Tree, Memory>
    ensures { IfOk result (λ tree. view tree ≡ context_activities publisher.now (said made.now).categories) }
{
    let mut built = Items::new(alloc);
    push(
        "grouping",
        activities::only_activity(alloc, publisher)?,
        &mut built,
    )?;
    push("category", categories_of(alloc, made)?, &mut built)?;
    Ok(whole(built))
}

fn categories_of(alloc: Global, made: &Made<'_>) -> Result<Tree, Memory>
    ensures { IfOk result (λ tree. view tree ≡ categories_json (said made.now).categories) }
{
    match made {
        Made::Waived { .. } => activities::two_activities(alloc, CMI5_CATEGORY, MOVE_ON_CATEGORY),
        Made::Launched { .. } | Made::Abandoned { .. } | Made::Satisfied { .. } => {
            activities::only_activity(alloc, CMI5_CATEGORY)
        }
    }
}

fn extensions_of(alloc: Global, made: &Made<'_>, session: &Id) -> Result<Tree, Memory>
    ensures { IfOk result (λ tree. view tree ≡ extensions_json session.now (said made.now).extensions) }
{
    match made {
        Made::Launched { mode, unit } => launched_extensions(alloc, *mode, unit, session),
        Made::Abandoned { .. } | Made::Waived { .. } | Made::Satisfied { .. } => {
            session_alone(alloc, session)
        }
    }
}

fn launched_extensions(alloc: Global, mode: Mode, unit: &Unit, session: &Id) -> Result<Tree, Memory>
    ensures { IfOk result (λ tree. view tree ≡ extensions_json session.now (launched_extensions mode unit.now)) }
{
    let mut built = Items::new(alloc);
    push_id(SESSION_ID, session, &mut built)?;
    push_words(LAUNCH_MODE, mode.text(), &mut built)?;
    push_words(LAUNCH_URL, unit.url.as_str(), &mut built)?;
    push_words(MOVE_ON, unit.move_on.text(), &mut built)?;
    push_number(MASTERY_SCORE, &unit.mastery_text, &mut built)?;
    push_given(LAUNCH_PARAMETERS, &unit.parameters, &mut built)?;
    Ok(whole(built))
}

// ---- results

fn push_result(alloc: Global, made: &Made<'_>, built: &mut Items<Member>) -> Result<(), Memory>
    ensures { OnOk result (map member_view built.new
        ≡ map member_view built.old ++ result_given (said made.now).outcome) }
{
    match made {
        Made::Abandoned { ms, .. } => push("result", abandoned_result(alloc, *ms)?, built),
        Made::Waived { reason, .. } => push("result", waived_result(alloc, *reason)?, built),
        Made::Launched { .. } | Made::Satisfied { .. } => Ok(()),
    }
}

fn abandoned_result(alloc: Global, ms: u64) -> Result<Tree, Memory>
    ensures { IfOk result (λ tree. view tree ≡ abandoned_result ms) }
{
    let duration = span_text(alloc, ms)?;
    let mut built = Items::new(alloc);
    push_words("duration", utf8_text(duration.as_slice()), &mut built)?;
    Ok(whole(built))
}

fn span_text(alloc: Global, ms: u64) -> Result<Vec<u8>, Memory>
    ensures { IfOk result (λ text. text.items ≡ span_text ms) }
{
    let mut text = Vec::new(alloc);
    match seconds_text(ms.min(LONGEST_SPAN), &mut text) {
        Ok(()) => Ok(text),
        Err(_) => Err(Memory),
    }
}

fn waived_result(alloc: Global, reason: Reason) -> Result<Tree, Memory>
    ensures { IfOk result (λ tree. view tree ≡ waived_result reason) }
{
    let mut built = Items::new(alloc);
    push("success", Tree::Bool(true), &mut built)?;
    push("completion", Tree::Bool(true), &mut built)?;
    push("extensions", reason_tree(alloc, reason)?, &mut built)?;
    Ok(whole(built))
}

fn reason_tree(alloc: Global, reason: Reason) -> Result<Tree, Memory>
    ensures { IfOk result (λ tree. view tree ≡ reason_json reason) }
{
    let mut built = Items::new(alloc);
    push_words(REASON, reason.text(), &mut built)?;
    Ok(whole(built))
}
