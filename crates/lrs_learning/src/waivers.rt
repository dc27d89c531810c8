// Waivers: a unit counts as met in a registration.
ghost use Rattle.std.specs.Prelude.{◌≡◌, ◌∷◌, ◌++◌, [], IfOk};
ghost use Rattle.lrs_command.specs.declared.who.Who.{Who as SpecWho};
ghost use Rattle.lrs_sessions.specs.LrsHistoryDeskEffects.{coming, waiving, waiving_as};
ghost use Rattle.lrs_sessions.specs.LrsHistoryEnrolments.{enrolled_as};
ghost use Rattle.lrs_sessions.specs.LrsHistoryLaunches.{target};
ghost use Rattle.lrs_sessions.specs.LrsHistoryMade.{made_under, owed_made, waived_at};
ghost use Rattle.lrs_ids.specs.Ids.{rest_of};
ghost use Rattle.lrs_ids.specs.IdSupply.{left_of};
ghost use Rattle.lrs_json.specs.View.{view};
ghost use Rattle.lrs_learning.specs.Occasions.{occasion_at, supply_at};
ghost use Rattle.lrs_sessions.specs.LrsMadeLent.{seen_target};
ghost use Rattle.lrs_sessions.specs.LrsPartsParts.{state_of};
ghost use Rattle.lrs_sessions.specs.LrsStateState.{no_change, used_in};

use crate::ids::supply_of;
use cmi5_course::Reason;
use lrs_ids::IdSupply;
use lrs_json::{Items, Memory};
use lrs_names::{Draw, Id, Iri};
use lrs_parts::{Effect, MadeSession, MadeSessionsChange, Parts};
use lrs_record::Moment;
use lrs_sessions::{
    LentTarget, add_owed, enrolled_as, is_waived, make_one, target, waived_statement,
};
use std::alloc::Global;
use xapi_statement::{Statement, StoredStatement};

/// Waives the unit of that id in the course of that registration, if both are there and no statement stands that waives
/// it. What is satisfied behind it is said.
pub fn waiving(
    alloc: Global,
    parts: &Parts,
    moment: Moment,
    draw: &Draw,
    registration: Id,
    unit: Iri,
    reason: Reason,
) -> Result<Effect, Memory>
    ensures { IfOk result (λ made. (by : SpecWho) → made
        ≡ waiving (state_of parts.now) (occasion_at (state_of parts.now) by moment draw.now) reason
        (target (state_of parts.now) registration unit)) }
{
    let Some(found) = target(parts, &registration, &unit) else {
        return Ok(Effect::no_change(alloc, moment));
    };
    let already = is_waived(alloc, parts, &found)?;
    if already {
        return Ok(Effect::no_change(alloc, moment));
    }
    waiving_as(alloc, parts, moment, draw, &found, reason)
}

// Waives a unit that isn't waived.
fn waiving_as(
    alloc: Global,
    parts: &Parts,
    moment: Moment,
    draw: &Draw,
    target: &LentTarget<'_>,
    reason: Reason,
) -> Result<Effect, Memory>
    ensures { IfOk result (λ made. (by : SpecWho) → made
        ≡ waiving_as (state_of parts.now) (occasion_at (state_of parts.now) by moment draw.now) (seen_target target.now)
        (waived_at (seen_target target.now) reason (supply_at (state_of parts.now) draw.now 0)
        (rest_of (supply_at (state_of parts.now) draw.now)) moment)) }
{
    let mut supply = supply_of(alloc, parts, draw)?;
    let session = supply.make(parts)?;
    let said = waived_statement(alloc, target, reason, &session)?;
    let made = with_owed(alloc, parts, moment, target, said, &session, &mut supply)?;
    Ok(waived(alloc, moment, session, made))
}

// The waived statement, and behind it what is owed.
fn with_owed(
    alloc: Global,
    parts: &Parts,
    moment: Moment,
    target: &LentTarget<'_>,
    said: Statement,
    session: &Id,
    supply: &mut IdSupply,
) -> Result<Vec<StoredStatement>, Memory>
    ensures { IfOk result (λ made. made.items
        ≡ made_under (left_of (used_in (state_of parts.now)) supply.old) moment (view said.tree ∷ [])
        ++ owed_made (state_of parts.now) session.now
        (rest_of (left_of (used_in (state_of parts.now)) supply.old)) moment
        (made_under (left_of (used_in (state_of parts.now)) supply.old) moment (view said.tree ∷ []))
        (enrolled_as (state_of parts.now) (seen_target target.now).registration)) }
{
    let mut made = Vec::new(alloc);
    make_one(parts, supply, moment, said, &mut made)?;
    let enrolled = enrolled_as(parts, target.registration);
    add_owed(
        alloc,
        parts,
        enrolled.as_ref(),
        session,
        moment,
        supply,
        &mut made,
    )?;
    Ok(made)
}

fn waived(alloc: Global, moment: Moment, session: Id, made: Vec<StoredStatement>) -> Effect
    ensures { result ≡ record (no_change moment) {
      statements = made.items;
      made_sessions = coming (record { id = session });
    } }
{
    let mut effect = Effect::no_change(alloc, moment);
    effect.statements = Items::from_vec(made);
    effect.made_sessions = MadeSessionsChange::of_new(MadeSession { id: session });
    effect
}
