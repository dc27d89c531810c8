// What a launch brings.
ghost use Rattle.std.specs.Prelude.{◌≡◌, ◌++◌, false, length, IfOk, OnOk, Some};
ghost use Rattle.lrs_sessions.specs.Cmi5LaunchAddresses.{IsAddress};
ghost use Rattle.lrs_command.specs.declared.who.Who.{Who as SpecWho};
ghost use Rattle.lrs_sessions.specs.LrsHistoryDeskEffects.{session_begun, coming, launching};
ghost use Rattle.lrs_sessions.specs.LrsHistoryLaunches.{activity_at, address_at, data_at, data_key, launch_at, launched_at, target};
ghost use Rattle.lrs_sessions.specs.LrsHistoryMade.{left_behind, made_under};
ghost use Rattle.lrs_ids.specs.Ids.{rest_of};
ghost use Rattle.lrs_ids.specs.IdSupply.{left_of};
ghost use Rattle.lrs_learning.specs.Occasions.{occasion_at, supply_at};
ghost use Rattle.lrs_sessions.specs.LrsMadeLent.{seen_target};
ghost use Rattle.lrs_sessions.specs.LrsMadeSaid.{jsons_of};
ghost use Rattle.lrs_sessions.specs.LrsPartsParts.{state_of};
ghost use Rattle.lrs_sessions.specs.LrsStateState.{no_change, used_in};
ghost use Rattle.lrs_sessions.specs.LrsStateAcceptanceAcceptanceTheVariants as acceptance;
ghost use Rattle.lrs_replies.specs.Texts.{token_text};
ghost use Rattle.xapi_docs.specs.declared.changes.DocumentsChange.TheVariants.{Written};

use crate::ids::supply_of;
use cmi5_course::{Launch, Mode};
use cmi5_launch::names::LAUNCH_DATA;
use cmi5_launch::{Made, launch_address, launch_data};
use lrs_ids::IdSupply;
use lrs_json::{Items, Memory, Number, Text};
use lrs_names::{Draw, Id, Iri};
use lrs_parts::{Acceptance, Effect, HeldKey, KeysChange, LaunchesChange, Parts, SessionsChange};
use lrs_record::Moment;
use lrs_replies::token_text;
use lrs_sessions::{
    LentTarget, abandoned_statements, launch_count, make_one, make_under, open_of, statement_of,
    target,
};
use std::alloc::Global;
use xapi_docs::{Document, DocumentsChange};
use xapi_keys::StateKey;
use xapi_statement::{Statement, StoredStatement};

/// Launches the unit of that id in the course of that registration, if both are there. Its open sessions in the
/// registration are abandoned.
pub fn launching(
    alloc: Global,
    parts: &Parts,
    moment: Moment,
    draw: &Draw,
    registration: Id,
    unit: Iri,
    mode: Mode,
    return_url: Option<Iri>,
) -> Result<Effect, Memory>
    ensures { IfOk result (λ made. (by : SpecWho) → made
        ≡ launching (state_of parts.now) (occasion_at (state_of parts.now) by moment draw.now) mode
        return_url (target (state_of parts.now) registration unit)) }
{
    let mut effect = Effect::no_change(alloc, moment);
    let Some(found) = target(parts, &registration, &unit) else {
        return Ok(effect);
    };
    match launch_into(
        alloc,
        parts,
        moment,
        draw,
        &found,
        mode,
        &return_url,
        &mut effect,
    ) {
        Ok(()) => Ok(effect),
        Err(refused) => {
            drop(effect);
            Err(refused)
        }
    }
}

// Puts what comes of a launch into an effect that has its moment alone.
fn launch_into(
    alloc: Global,
    parts: &Parts,
    moment: Moment,
    draw: &Draw,
    target: &LentTarget<'_>,
    mode: Mode,
    return_url: &Option<Iri>,
    effect: &mut Effect,
) -> Result<(), Memory>
    requires address { IsAddress target.now.unit.now.url }
    requires alone { effect.old ≡ no_change moment }
    ensures { OnOk result ((by : SpecWho) → effect.new
        ≡ launching (state_of parts.now)
        (occasion_at (state_of parts.now) by moment draw.now) mode return_url.now
        (Some (seen_target target.now))) }
{
    let activity = target.activity(alloc)?;
    let launched = launch_over(
        alloc, parts, moment, draw, target, &activity, mode, return_url, effect,
    );
    drop(activity);
    launched
}

// The same under that id of the unit, whose open sessions in the registration are abandoned.
fn launch_over(
    alloc: Global,
    parts: &Parts,
    moment: Moment,
    draw: &Draw,
    target: &LentTarget<'_>,
    activity: &Iri,
    mode: Mode,
    return_url: &Option<Iri>,
    effect: &mut Effect,
) -> Result<(), Memory>
    requires address { IsAddress target.now.unit.now.url }
    requires activity { activity.now ≡ activity_at (seen_target target.now) }
    requires alone { effect.old ≡ no_change moment }
    ensures { OnOk result ((by : SpecWho) → effect.new
        ≡ launching (state_of parts.now)
        (occasion_at (state_of parts.now) by moment draw.now) mode return_url.now
        (Some (seen_target target.now))) }
{
    let numbers = open_of(alloc, parts, &target.registration.id, activity)?;
    let said = abandoned_statements(alloc, parts, numbers.as_slice())?;
    let begun = begin(alloc, parts, moment, draw, target, activity, mode, said)?;
    let session = begun.session;
    set_sessions(effect, numbers);
    set_statements(effect, begun.made);
    launch_as(
        alloc, parts, moment, draw, target, activity, mode, return_url, session, effect,
    )?;
    Ok(())
}

// The id of a session, and the statements that are made as it begins.
#[derive(Drop)]
struct Begun {
    session: Id,
    made: Vec<StoredStatement>,
}

// The launched statement goes behind what is said first.
fn begin(
    alloc: Global,
    parts: &Parts,
    moment: Moment,
    draw: &Draw,
    target: &LentTarget<'_>,
    activity: &Iri,
    mode: Mode,
    said: Vec<Statement>,
) -> Result<Begun, Memory>
    requires { activity.now ≡ activity_at (seen_target target.now) }
    ensures session { IfOk result (λ begun. begun.session ≡ supply_at (state_of parts.now) draw.now 0) }
    ensures made { IfOk result (λ begun. begun.made.items
        ≡ made_under (rest_of (supply_at (state_of parts.now) draw.now)) moment (jsons_of said.items)
        ++ launched_at (seen_target target.now) mode begun.session
        (left_behind (rest_of (supply_at (state_of parts.now) draw.now)) (jsons_of said.items) 0) moment) }
{
    let mut supply = supply_of(alloc, parts, draw)?;
    let session = supply.make(parts)?;
    let mut made = Vec::new(alloc);
    make_under(parts, &mut supply, moment, said, &mut made)?;
    push_launched(
        alloc,
        parts,
        target,
        activity,
        mode,
        &session,
        moment,
        &mut supply,
        &mut made,
    )?;
    Ok(Begun { session, made })
}

// The key, the document and the launch of a session.
fn launch_as(
    alloc: Global,
    parts: &Parts,
    moment: Moment,
    draw: &Draw,
    target: &LentTarget<'_>,
    activity: &Iri,
    mode: Mode,
    return_url: &Option<Iri>,
    session: Id,
    effect: &mut Effect,
) -> Result<(), Memory>
    requires address { IsAddress target.now.unit.now.url }
    requires activity { activity.now ≡ activity_at (seen_target target.now) }
    ensures { OnOk result (effect.new ≡ record effect.old {
      documents = Written (data_key (seen_target target.now))
          (data_at (seen_target target.now) mode return_url.now session moment);
      launches = coming (launch_at (seen_target target.now) mode session);
      keys = coming (record {
        key = token_text parts.now.length draw.now.secret;
        launch = length (state_of parts.now).launches;
        fetched = false;
      });
      acceptance = acceptance.Launch session target.now.unit.now.method
          (address_at (seen_target target.now) (token_text parts.now.length draw.now.secret));
    }) }
{
    add_key(alloc, parts, draw, target, activity, session, effect)?;
    add_data(
        alloc, target, activity, mode, return_url, session, moment, effect,
    )?;
    add_launch(target, activity, mode, session, effect)
}

// The key, and the address that tells it.
fn add_key(
    alloc: Global,
    parts: &Parts,
    draw: &Draw,
    target: &LentTarget<'_>,
    activity: &Iri,
    session: Id,
    effect: &mut Effect,
) -> Result<(), Memory>
    requires address { IsAddress target.now.unit.now.url }
    requires activity { activity.now ≡ activity_at (seen_target target.now) }
    ensures { OnOk result (effect.new ≡ record effect.old {
      keys = coming (record {
        key = token_text parts.now.length draw.now.secret;
        launch = length (state_of parts.now).launches;
        fetched = false;
      });
      acceptance = acceptance.Launch session target.now.unit.now.method
          (address_at (seen_target target.now) (token_text parts.now.length draw.now.secret));
    }) }
{
    let launch = launch_count(parts)?;
    let key = token_text(alloc, parts.length, draw.secret)?;
    match told(alloc, target, activity, &key, session) {
        Ok(told) => {
            set_acceptance(effect, told);
            set_key(effect, key, launch);
            Ok(())
        }
        Err(refused) => {
            drop(key);
            Err(refused)
        }
    }
}

// Each field is set by a function of its own, which only drops what was there.

fn set_acceptance(effect: &mut Effect, told: Acceptance)
    ensures { effect.new ≡ record effect.old { acceptance = told } }
{
    effect.acceptance = told;
}

fn set_key(effect: &mut Effect, key: Text, launch: u32)
    ensures { effect.new ≡ record effect.old {
      keys = coming (record { key = key; launch = launch; fetched = false });
    } }
{
    effect.keys = KeysChange::of_new(HeldKey {
        key,
        launch,
        fetched: false,
    });
}

fn set_documents(effect: &mut Effect, change: DocumentsChange)
    ensures { effect.new ≡ record effect.old { documents = change } }
{
    effect.documents = change;
}

fn set_launch(effect: &mut Effect, launch: Launch)
    ensures { effect.new ≡ record effect.old { launches = coming launch } }
{
    effect.launches = LaunchesChange::of_new(launch);
}

fn set_sessions(effect: &mut Effect, abandoned: Vec<u32>)
    ensures { effect.new ≡ record effect.old { sessions = session_begun abandoned.items } }
{
    effect.sessions = SessionsChange {
        abandoned: Items::from_vec(abandoned),
        fetched: None,
        launched: true,
    };
}

fn set_statements(effect: &mut Effect, made: Vec<StoredStatement>)
    ensures { effect.new ≡ record effect.old { statements = made.items } }
{
    effect.statements = Items::from_vec(made);
}

fn add_data(
    alloc: Global,
    target: &LentTarget<'_>,
    activity: &Iri,
    mode: Mode,
    return_url: &Option<Iri>,
    session: Id,
    moment: Moment,
    effect: &mut Effect,
) -> Result<(), Memory>
    requires { activity.now ≡ activity_at (seen_target target.now) }
    ensures { OnOk result (effect.new ≡ record effect.old {
      documents = Written (data_key (seen_target target.now))
          (data_at (seen_target target.now) mode return_url.now session moment);
    }) }
{
    let change = data(alloc, target, activity, mode, return_url, &session, moment)?;
    set_documents(effect, change);
    Ok(())
}

fn add_launch(
    target: &LentTarget<'_>,
    activity: &Iri,
    mode: Mode,
    session: Id,
    effect: &mut Effect,
) -> Result<(), Memory>
    requires { activity.now ≡ activity_at (seen_target target.now) }
    ensures { OnOk result (effect.new ≡ record effect.old {
      launches = coming (launch_at (seen_target target.now) mode session);
    }) }
{
    let launch = launch_at(target, activity, mode, session)?;
    set_launch(effect, launch);
    Ok(())
}

// What its caller is told: where the learner is sent.
fn told(
    alloc: Global,
    target: &LentTarget<'_>,
    activity: &Iri,
    key: &Text,
    session: Id,
) -> Result<Acceptance, Memory>
    requires address { IsAddress target.now.unit.now.url }
    requires activity { activity.now ≡ activity_at (seen_target target.now) }
    ensures { IfOk result (λ told. told
        ≡ acceptance.Launch session target.now.unit.now.method (address_at (seen_target target.now) key.now)) }
{
    let unit = target.unit;
    let url = launch_address(
        alloc,
        unit,
        target.base.text(),
        key,
        target.registration.actor.agent(),
        &target.registration.id,
        activity,
    )?;
    Ok(Acceptance::Launch {
        session,
        method: unit.method,
        url,
    })
}

// The document `LMS.LaunchData` (cmi5 Quartz, section 10.2).
fn data(
    alloc: Global,
    target: &LentTarget<'_>,
    activity: &Iri,
    mode: Mode,
    return_url: &Option<Iri>,
    session: &Id,
    moment: Moment,
) -> Result<DocumentsChange, Memory>
    requires { activity.now ≡ activity_at (seen_target target.now) }
    ensures { IfOk result (λ change. change ≡ Written (data_key (seen_target target.now))
        (data_at (seen_target target.now) mode return_url.now session.now moment)) }
{
    let bytes = launch_data(
        alloc,
        target.unit,
        target.publisher,
        session,
        mode,
        return_url,
    )?;
    let media = Text::of(alloc, "application/json")?;
    let document = Document {
        media,
        bytes: Items::from_vec(bytes),
        moment,
    };
    match data_key(alloc, target, activity) {
        Ok(key) => Ok(DocumentsChange::Written { key, document }),
        Err(refused) => {
            drop(document);
            Err(refused)
        }
    }
}

fn data_key(alloc: Global, target: &LentTarget<'_>, activity: &Iri) -> Result<StateKey, Memory>
    requires { activity.now ≡ activity_at (seen_target target.now) }
    ensures { IfOk result (λ key. key ≡ data_key (seen_target target.now)) }
{
    Ok(StateKey {
        registration: Some(target.registration.id),
        activity: activity.copy()?,
        state: Text::of(alloc, LAUNCH_DATA)?,
        agent: target.registration.actor.agent().ifi.copy()?,
    })
}

fn launch_at(
    target: &LentTarget<'_>,
    activity: &Iri,
    mode: Mode,
    session: Id,
) -> Result<Launch, Memory>
    requires { activity.now ≡ activity_at (seen_target target.now) }
    ensures { IfOk result (λ launch. launch ≡ launch_at (seen_target target.now) mode session) }
{
    Ok(Launch {
        session,
        registration: target.registration.id,
        mode,
        activity: activity.copy()?,
        publisher: target.publisher.copy()?,
        mastery: mastery_of(target)?,
        actor: target.registration.actor.agent().ifi.copy()?,
    })
}

// The score that passes the unit, as its course spells it.
fn mastery_of(target: &LentTarget<'_>) -> Result<Option<Number>, Memory>
    ensures { IfOk result (λ mastery. mastery ≡ (seen_target target.now).unit.mastery_text) }
{
    let unit = target.unit;
    match &unit.mastery_text {
        Some(spelling) => Ok(Some(spelling.clone()?)),
        None => Ok(None),
    }
}

// Puts the statement that the store makes of it (cmi5 Quartz, section 9.3.1) behind others, under the next id.
fn push_launched(
    alloc: Global,
    parts: &Parts,
    target: &LentTarget<'_>,
    activity: &Iri,
    mode: Mode,
    session: &Id,
    moment: Moment,
    supply: &mut IdSupply,
    made: &mut Vec<StoredStatement>,
) -> Result<(), Memory>
    requires { activity.now ≡ activity_at (seen_target target.now) }
    ensures { OnOk result (made.new.items
        ≡ made.old.items
        ++ launched_at (seen_target target.now) mode session.now
        (left_of (used_in (state_of parts.now)) supply.old 0) moment) }
{
    let kind = Made::Launched {
        mode,
        unit: target.unit,
    };
    let said = statement_of(
        alloc,
        &kind,
        target.registration,
        activity,
        target.publisher,
        session,
    )?;
    make_one(parts, supply, moment, said, made)
}
