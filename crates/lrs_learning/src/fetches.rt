// What a fetch does: it gives the token of a session away.
ghost use Rattle.std.specs.Prelude.{◌≡◌, IfOk};
ghost use Rattle.lrs_command.specs.declared.who.Who.{Who as SpecWho};
ghost use Rattle.lrs_sessions.specs.LrsHistoryDeskEffects.{fetching, giving, telling};
ghost use Rattle.lrs_learning.specs.Occasions.{occasion_at};
ghost use Rattle.lrs_sessions.specs.LrsStateLaunches.{key_under};
ghost use Rattle.lrs_sessions.specs.LrsPartsParts.{state_of};

use lrs_json::{Memory, Text};
use lrs_names::Draw;
use lrs_parts::{Acceptance, Effect, HeldKey, HeldToken, Parts, TokensChange};
use lrs_record::Moment;
use lrs_replies::token_text;
use lrs_sessions::is_closed;
use std::alloc::Global;

/// Gives the token of a key's session away, unless it was given or the session is closed.
pub fn fetching(
    alloc: Global,
    parts: &Parts,
    moment: Moment,
    draw: &Draw,
    key: Text,
) -> Result<Effect, Memory>
    ensures { IfOk result (λ made. (by : SpecWho) → made
        ≡ fetching (state_of parts.now) (occasion_at (state_of parts.now) by moment draw.now)
        (key_under key (state_of parts.now).keys)) }
{
    let Some(held) = parts.learning.keys.find(&key) else {
        return Ok(Effect::no_change(alloc, moment));
    };
    if held.fetched {
        return Ok(telling(alloc, moment, Acceptance::KeyUsed));
    }
    if is_closed(parts, held.launch) {
        return Ok(telling(alloc, moment, Acceptance::SessionClosed));
    }
    giving(alloc, parts, moment, draw, held)
}

// The token tells the index of its entry.
fn giving(
    alloc: Global,
    parts: &Parts,
    moment: Moment,
    draw: &Draw,
    key: &HeldKey,
) -> Result<Effect, Memory>
    ensures { IfOk result (λ made. (by : SpecWho) → made
        ≡ giving (occasion_at (state_of parts.now) by moment draw.now) key.now) }
{
    let token = token_text(alloc, parts.length, draw.secret)?;
    let told = token.clone()?;
    let text = key.key.clone()?;
    let mut effect = telling(alloc, moment, Acceptance::Token(told));
    effect.sessions.fetched = Some(key.launch);
    effect.keys.replaced = Some(HeldKey {
        key: text,
        launch: key.launch,
        fetched: true,
    });
    effect.tokens = TokensChange::of_new(HeldToken {
        token,
        launch: key.launch,
    });
    Ok(effect)
}

fn telling(alloc: Global, moment: Moment, told: Acceptance) -> Effect
    ensures { result ≡ telling moment told }
{
    let mut effect = Effect::no_change(alloc, moment);
    effect.acceptance = told;
    effect
}
