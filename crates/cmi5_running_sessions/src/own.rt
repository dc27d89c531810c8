// What a session's own statements said.
ghost use Rattle.std.specs.Prelude.{◌≡◌, ◌||◌, Some, None, if◌then◌else◌};
ghost use Rattle.std.specs.Option.{option_or};
ghost use Rattle.cmi5_session.specs.Cmi5LaunchNames.{initialized, terminated};
ghost use Rattle.cmi5_running_sessions.specs.Maps.{is_nothing_said, own_behind};
ghost use Rattle.cmi5_running_sessions.specs.Kept.{nothing_said};
ghost use Rattle.cmi5_session.specs.Own.{says};
ghost use Rattle.lrs_json.specs.View.{view};

use cmi5_session::{INITIALIZED, StoredStatement, TERMINATED, says};
use lrs_time::Moment;

/// What a session's own statements said, voided or not.
#[derive(Clone, Copy)]
pub struct OwnSaid {
    /// When the session said that it is initialized, if it did.
    pub began: Option<Moment>,
    /// Whether it said that it is terminated.
    pub ended: bool,
    /// When it said something last, if it said anything.
    pub last: Option<Moment>,
}

impl OwnSaid {
    pub(crate) fn nothing() -> OwnSaid
        ensures { result ≡ nothing_said }
    {
        OwnSaid {
            began: None,
            ended: false,
            last: None,
        }
    }

    pub(crate) fn is_nothing(self) -> bool
        ensures { result ≡ is_nothing_said self }
    {
        self.began.is_none() && !self.ended && self.last.is_none()
    }

    /// Adds what one statement more of the session's own says.
    pub(crate) fn hear(&mut self, statement: &StoredStatement)
        ensures { self.new ≡ own_behind statement.now self.old }
    {
        *self = self.behind(statement);
    }

    fn behind(self, statement: &StoredStatement) -> OwnSaid
        ensures { result ≡ own_behind statement.now self }
    {
        OwnSaid {
            began: began_by_now(self.began, statement),
            ended: ended_by_now(self.ended, statement),
            last: Some(statement.stored()),
        }
    }
}

// Whether the session ended, as of one statement more of its own.
fn ended_by_now(ended: bool, statement: &StoredStatement) -> bool
    ensures { result ≡ ended || says terminated (view statement.now.received) }
{
    ended || says(TERMINATED, statement.received())
}

// When the session began, as of one statement more of its own. The first one that says so counts.
fn began_by_now(began: Option<Moment>, statement: &StoredStatement) -> Option<Moment>
    ensures { result ≡ option_or began
        (if says initialized (view statement.now.received) then Some statement.now.stored else None) }
{
    match began {
        Some(moment) => Some(moment),
        None => {
            if says(INITIALIZED, statement.received()) {
                Some(statement.stored())
            } else {
                None
            }
        }
    }
}
