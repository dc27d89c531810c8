// What a statement tells: whose own it is, and of which unit it says something that is counted.
ghost use Rattle.std.specs.Prelude.{◌≡◌, ◌&&◌, ◌||◌, ℕ, List, false};
ghost use Rattle.std.specs.Option.{option_map_or};
ghost use Rattle.std.specs.Str.{bytes_eq};
ghost use Rattle.cmi5_session.specs.Cmi5LaunchNames.{completed, passed};
ghost use Rattle.cmi5_running_sessions.specs.Room.{needs_unit};
ghost use Rattle.cmi5_session.specs.Own.{is_of_session, says};
ghost use Rattle.lrs_json.specs.View.{view};
ghost use Rattle.cmi5_session.specs.XapiStatementStatements.{is_that_id};
ghost use Rattle.cmi5_session.specs.XapiStatementStatement.{activity_of, registration_of};

use cmi5_session::{
    Authority, COMPLETED, PASSED, StoredStatement, activity_of, registration_of, says,
};
use lrs_json::{Text, Tree};
use lrs_names::Id;

/// The session whose own statement one under that authority is, if it is one's.
pub(crate) fn session_of(authority: &Authority) -> Option<Id>
    ensures { (id : List ℕ) → is_of_session id authority.now ≡ is_that_id id result }
{
    match authority {
        Authority::Session(own) => Some(*own),
        Authority::Admin | Authority::Provider { .. } | Authority::Desk => None,
    }
}

// Whether it says something that is counted.
fn is_counted(statement: &Tree) -> bool
    ensures { result ≡ says completed (view statement.now) || says passed (view statement.now) }
{
    says(COMPLETED, statement) || says(PASSED, statement)
}

/// The unit of an activity in a registration.
#[derive(Clone, Copy)]
pub(crate) struct UnitTold<'a> {
    pub(crate) registration: Id,
    pub(crate) activity: &'a Text,
}

// The registration and the activity that it names, if it names both.
fn unit_named(statement: &Tree) -> Option<UnitTold<'_>>
    ensures { (r a : List ℕ) →
        (is_that_id r (registration_of (view statement.now)) && is_that_id a (activity_of (view statement.now)))
        ≡ option_map_or (λ u. bytes_eq u.registration r && bytes_eq u.activity.now a) result false }
{
    match registration_of(statement) {
        Some(registration) => match activity_of(statement) {
            Some(activity) => Some(UnitTold {
                registration,
                activity,
            }),
            None => None,
        },
        None => None,
    }
}

/// The unit of which it says in that registration something that is counted.
pub(crate) fn unit_told(statement: &StoredStatement) -> Option<UnitTold<'_>>
    ensures { (r a : List ℕ) → needs_unit r a statement.now
        ≡ option_map_or (λ u. bytes_eq u.registration r && bytes_eq u.activity.now a) result false }
{
    if is_counted(statement.received()) {
        unit_named(statement.received())
    } else {
        None
    }
}
