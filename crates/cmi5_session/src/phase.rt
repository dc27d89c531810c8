// How far a session has come.
ghost use Rattle.std.specs.Prelude.{◌≡◌};
ghost use Rattle.cmi5_session.specs.Phases.{is_over, phase_behind};
ghost use Rattle.lrs_json.specs.View.{view};

use crate::defined::says;
use cmi5_launch::names::{INITIALIZED, TERMINATED};
use lrs_json::Tree;

/// How far a session has come (cmi5 Quartz, section 9.3).
#[derive(Clone, Copy, Debug, PartialEq, Eq)]
pub enum Phase {
    /// Its unit was launched.
    Launched,
    /// Its token was fetched.
    Fetched,
    /// Its content said that it began.
    Initialized,
    /// Its content said that it ended.
    Terminated,
    /// The store abandoned it.
    Abandoned,
}

impl Phase {
    /// Whether nothing more comes of the session.
    pub(crate) fn is_over(self) -> bool
        ensures { result ≡ is_over self }
    {
        match self {
            Phase::Launched | Phase::Fetched | Phase::Initialized => false,
            Phase::Terminated | Phase::Abandoned => true,
        }
    }

    /// The phase behind one statement more of the session's own.
    pub(crate) fn behind(self, statement: &Tree) -> Phase
        ensures { result ≡ phase_behind self (view statement.now) }
    {
        if self.is_over() {
            return self;
        }
        if says(TERMINATED, statement) {
            return Phase::Terminated;
        }
        if says(INITIALIZED, statement) {
            return Phase::Initialized;
        }
        self
    }
}
