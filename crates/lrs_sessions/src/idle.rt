// In which sessions nothing happened for so long.
ghost use Rattle.std.specs.Prelude.{◌≡◌, ◌&&◌, ◌+◌, ◌*◌, max, nat_le, IfOk};
ghost use Rattle.lrs_made.specs.Cmi5SessionMoments.{last_own};
ghost use Rattle.lrs_made.specs.LrsHistoryEndings.{desk_moment, idle_ones, is_idle, is_open, last_event};
ghost use Rattle.lrs_made.specs.LrsPartsParts.{state_of};

use crate::closed::is_open;
use crate::numbers::launch_count;
use lrs_json::Memory;
use lrs_made::{Parts, push_if};
use lrs_names::Id;
use lrs_time::Moment;
use std::alloc::Global;

/// The numbers of the launches whose sessions are open and idle for so many seconds at that moment, in their order.
pub fn idle_ones(
    alloc: Global,
    parts: &Parts,
    seconds: u32,
    moment: Moment,
) -> Result<Vec<u32>, Memory>
    ensures { IfOk result (λ numbers. numbers.items ≡ idle_ones (state_of parts.now) seconds moment) }
{
    let count = launch_count(parts)?;
    let mut numbers = Vec::new(alloc);
    for number in 0..count {
        push_if(
            &mut numbers,
            number,
            is_idle_and_open(parts, seconds, moment, number),
        )?;
    }
    Ok(numbers)
}

// Whether the session is open is asked only where the desk's moment lies so far back, and what it said last only where
// it is.
fn is_idle_and_open(parts: &Parts, seconds: u32, moment: Moment, number: u32) -> bool
    ensures { result ≡ is_idle (state_of parts.now) seconds moment number
        && is_open (state_of parts.now) number }
{
    if !lies_back(desk_moment(parts, number), seconds, moment) {
        return false;
    }
    if !is_open(parts, number) {
        return false;
    }
    is_idle(parts, seconds, moment, number)
}

fn is_idle(parts: &Parts, seconds: u32, moment: Moment, number: u32) -> bool
    ensures { result ≡ is_idle (state_of parts.now) seconds moment number }
{
    lies_back(last_event(parts, number), seconds, moment)
}

// Whether a moment lies so many seconds back at the other, or more.
fn lies_back(since: Moment, seconds: u32, moment: Moment) -> bool
    ensures { result ≡ nat_le (since + 1000 * seconds) moment }
{
    since.milliseconds() + 1000 * u64::from(seconds) <= moment.milliseconds()
}

// ---- the last event

fn last_event(parts: &Parts, number: u32) -> Moment
    ensures { result ≡ last_event (state_of parts.now) number }
{
    match parts.learning.launches.get(number) {
        Some(launch) => last_event_of(parts, number, &launch.session),
        None => earliest(),
    }
}

fn last_event_of(parts: &Parts, number: u32, session: &Id) -> Moment
    ensures { result ≡ max (desk_moment (state_of parts.now) number)
        (last_own session.now 0 (state_of parts.now).statements) }
{
    let said = parts.last_own(session, earliest());
    later(desk_moment(parts, number), said)
}

// When the session was launched, or when its token was given away if it was.
fn desk_moment(parts: &Parts, number: u32) -> Moment
    ensures { result ≡ desk_moment (state_of parts.now) number }
{
    match parts.learning.sessions.get(number) {
        Some(session) => session.moment,
        None => earliest(),
    }
}

// ---- moments

fn earliest() -> Moment
    ensures { result ≡ 0 }
{
    Moment::clamp(0)
}

fn later(a: Moment, b: Moment) -> Moment
    ensures { result ≡ max a b }
{
    if b.milliseconds() < a.milliseconds() {
        a
    } else {
        b
    }
}
