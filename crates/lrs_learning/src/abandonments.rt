// Abandonments: sessions end that didn't say so.
ghost use Rattle.std.specs.Prelude.{◌≡◌, IfOk};
ghost use Rattle.lrs_command.specs.declared.who.Who.{Who as SpecWho};
ghost use Rattle.lrs_sessions.specs.LrsHistoryDeskEffects.{sessions_abandoned, abandoning_each, abandoning_one, sweeping};
ghost use Rattle.lrs_sessions.specs.LrsHistoryEndings.{abandoned_jsons};
ghost use Rattle.lrs_sessions.specs.LrsHistoryMade.{made_under};
ghost use Rattle.lrs_learning.specs.Occasions.{occasion_at, supply_at};
ghost use Rattle.lrs_sessions.specs.LrsStateLaunches.{index_of_session};
ghost use Rattle.lrs_sessions.specs.LrsPartsParts.{state_of};
ghost use Rattle.lrs_sessions.specs.LrsStateState.{no_change};

use crate::ids::supply_of;
use lrs_json::{Items, Memory};
use lrs_names::{Draw, Id};
use lrs_parts::{Acceptance, Effect, Parts, SessionsChange};
use lrs_record::Moment;
use lrs_sessions::{abandoned_statements, idle_ones, is_open, make_under, sessions_at};
use std::alloc::Global;
use xapi_statement::StoredStatement;

/// Abandons the session of that id, if it is a launch's and open.
pub fn abandoning_one(
    alloc: Global,
    parts: &Parts,
    moment: Moment,
    draw: &Draw,
    session: Id,
) -> Result<Effect, Memory>
    ensures { IfOk result (λ made. (by : SpecWho) → made
        ≡ abandoning_one (state_of parts.now) (occasion_at (state_of parts.now) by moment draw.now)
        (index_of_session session (state_of parts.now).launches)) }
{
    let Some(number) = parts.learning.launches.index_of(&session) else {
        return Ok(Effect::no_change(alloc, moment));
    };
    if !is_open(parts, number) {
        return Ok(Effect::no_change(alloc, moment));
    }
    let mut numbers = Vec::new(alloc);
    numbers.push(number)?;
    abandoning_each(alloc, parts, moment, draw, numbers)
}

/// Abandons the open sessions in which nothing happened for so many seconds, or longer.
pub fn sweeping(
    alloc: Global,
    parts: &Parts,
    moment: Moment,
    draw: &Draw,
    idle: u32,
) -> Result<Effect, Memory>
    ensures { IfOk result (λ made. (by : SpecWho) → made
        ≡ sweeping (state_of parts.now) (occasion_at (state_of parts.now) by moment draw.now) idle) }
{
    let numbers = idle_ones(alloc, parts, idle, moment)?;
    let sessions = sessions_at(alloc, parts, numbers.as_slice())?;
    let mut effect = abandoning_each(alloc, parts, moment, draw, numbers)?;
    effect.acceptance = Acceptance::Swept(Items::from_vec(sessions));
    Ok(effect)
}

// Abandons the sessions of the launches of these numbers.
fn abandoning_each(
    alloc: Global,
    parts: &Parts,
    moment: Moment,
    draw: &Draw,
    numbers: Vec<u32>,
) -> Result<Effect, Memory>
    ensures { IfOk result (λ made. (by : SpecWho) → made
        ≡ abandoning_each (state_of parts.now) (occasion_at (state_of parts.now) by moment draw.now) numbers.items) }
{
    let made = said_of(alloc, parts, moment, draw, numbers.as_slice())?;
    Ok(ended(alloc, moment, numbers, made))
}

// What is said of each.
fn said_of(
    alloc: Global,
    parts: &Parts,
    moment: Moment,
    draw: &Draw,
    numbers: &[u32],
) -> Result<Vec<StoredStatement>, Memory>
    ensures { IfOk result (λ made. made.items ≡ made_under (supply_at (state_of parts.now) draw.now) moment
        (abandoned_jsons (state_of parts.now) numbers.now)) }
{
    let mut supply = supply_of(alloc, parts, draw)?;
    let said = abandoned_statements(alloc, parts, numbers)?;
    let mut made = Vec::new(alloc);
    make_under(parts, &mut supply, moment, said, &mut made)?;
    Ok(made)
}

fn ended(alloc: Global, moment: Moment, numbers: Vec<u32>, made: Vec<StoredStatement>) -> Effect
    ensures { result ≡ record (no_change moment) {
      statements = made.items;
      sessions = sessions_abandoned numbers.items;
    } }
{
    let mut effect = Effect::no_change(alloc, moment);
    effect.statements = Items::from_vec(made);
    effect.sessions = SessionsChange {
        abandoned: Items::from_vec(numbers),
        fetched: None,
        launched: false,
    };
    effect
}
