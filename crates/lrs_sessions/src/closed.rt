// Which sessions are closed, and which are open.
ghost use Rattle.std.specs.Prelude.{◌≡◌, ◌&&◌, IfOk};
ghost use Rattle.lrs_made.specs.LrsHistoryEndings.{is_launch_of, is_number_of, is_open, open_of};
ghost use Rattle.lrs_made.specs.LrsHistorySessions.{is_closed, is_terminated};
ghost use Rattle.lrs_made.specs.LrsPartsParts.{state_of};

use crate::numbers::launch_count;
use cmi5_course::Launch;
use lrs_json::Memory;
use lrs_made::{Parts, push_if};
use lrs_names::{Id, Iri};
use std::alloc::Global;

/// Whether the session of the launch of that number is closed: it was abandoned, or said that it ended.
pub fn is_closed(parts: &Parts, number: u32) -> bool
    ensures { result ≡ is_closed (state_of parts.now) number }
{
    parts.learning.sessions.is_abandoned(number) || is_terminated(parts, number)
}

fn is_terminated(parts: &Parts, number: u32) -> bool
    ensures { result ≡ is_terminated (state_of parts.now) number }
{
    match parts.learning.launches.get(number) {
        Some(launch) => parts.has_ended(&launch.session),
        None => false,
    }
}

/// Whether the session of the launch of that number is there, and not closed.
pub fn is_open(parts: &Parts, number: u32) -> bool
    ensures { result ≡ is_open (state_of parts.now) number }
{
    parts.learning.launches.get(number).is_some() && !is_closed(parts, number)
}

/// The numbers of the launches of that activity in that registration whose sessions are open, in their order. The
/// activity is named by the id under which the store knows it.
pub fn open_of(
    alloc: Global,
    parts: &Parts,
    registration: &Id,
    activity: &Iri,
) -> Result<Vec<u32>, Memory>
    ensures { IfOk result (λ numbers.
        numbers.items ≡ open_of (state_of parts.now) registration.now activity.now) }
{
    let count = launch_count(parts)?;
    let mut numbers = Vec::new(alloc);
    for number in 0..count {
        push_if(
            &mut numbers,
            number,
            is_open_of(parts, registration, activity, number),
        )?;
    }
    Ok(numbers)
}

// Whether it is open is asked only where the rest holds.
fn is_open_of(parts: &Parts, registration: &Id, activity: &Iri, number: u32) -> bool
    ensures { result ≡ is_number_of (state_of parts.now) registration.now activity.now number
        && is_open (state_of parts.now) number }
{
    is_number_of(parts, registration, activity, number) && is_open(parts, number)
}

fn is_number_of(parts: &Parts, registration: &Id, activity: &Iri, number: u32) -> bool
    ensures { result ≡ is_number_of (state_of parts.now) registration.now activity.now number }
{
    match parts.learning.launches.get(number) {
        Some(launch) => is_launch_of(registration, activity, launch),
        None => false,
    }
}

fn is_launch_of(registration: &Id, activity: &Iri, launch: &Launch) -> bool
    ensures { result ≡ is_launch_of registration.now activity.now launch.now }
{
    launch.registration == *registration
        && launch.activity.text().as_str() == activity.text().as_str()
}
