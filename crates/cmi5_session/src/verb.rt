// The verbs with which a session speaks.
ghost use Rattle.std.specs.Prelude.{◌≡◌};
ghost use Rattle.cmi5_session.specs.Rules.{is_result, verb_named};

use cmi5_launch::names::{COMPLETED, FAILED, INITIALIZED, PASSED, TERMINATED};

/// What the content of a unit says of its learner (cmi5 Quartz, section 9.3).
#[derive(Clone, Copy, Debug, PartialEq, Eq)]
pub(crate) enum Verb {
    Initialized,
    Completed,
    Passed,
    Failed,
    Terminated,
}

impl Verb {
    /// The one of that id.
    pub fn named(id: &str) -> Option<Verb>
        ensures { result ≡ verb_named id.now }
    {
        if id == INITIALIZED {
            return Some(Verb::Initialized);
        }
        if id == COMPLETED {
            return Some(Verb::Completed);
        }
        if id == PASSED {
            return Some(Verb::Passed);
        }
        if id == FAILED {
            return Some(Verb::Failed);
        }
        if id == TERMINATED {
            return Some(Verb::Terminated);
        }
        None
    }

    /// Whether it says how the learner did.
    pub fn is_result(self) -> bool
        ensures { result ≡ is_result self }
    {
        match self {
            Verb::Completed | Verb::Passed | Verb::Failed => true,
            Verb::Initialized | Verb::Terminated => false,
        }
    }
}
