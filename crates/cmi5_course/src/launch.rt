ghost use Rattle.std.specs.Prelude.{◌≡◌, Some, IfSome};
ghost use Rattle.cmi5_course.specs.Words.{mode_text, mode_of};

use lrs_agents::Ifi;
use lrs_json::Number;
use lrs_names::{Id, Iri};
use lrs_register::Keyed;
use std::alloc::AllocError;

/// What a unit is launched for (cmi5 Quartz, section 10.2.2, `launchMode`).
#[derive(Clone, Copy, Debug, PartialEq, Eq)]
pub enum Mode {
    Normal,
    Browse,
    Review,
}

impl Mode {
    /// Its word in requests for a launch and in launch data.
    #[tactic(auto, unfolding(crate::specs::Words::mode_of))]
    pub fn text(self) -> &'static str
        ensures text { result.now ≡ mode_text self }
        ensures read_back { mode_of result.now ≡ Some self }
    {
        match self {
            Mode::Normal => "Normal",
            Mode::Browse => "Browse",
            Mode::Review => "Review",
        }
    }

    /// The one of that word.
    #[tactic(auto, unfolding(crate::specs::Words::mode_of))]
    pub fn of(text: &str) -> Option<Mode>
        ensures value { result ≡ mode_of text.now }
        ensures spelled { IfSome result (λ mode. mode_text mode ≡ text.now) }
    {
        match text {
            "Normal" => Some(Mode::Normal),
            "Browse" => Some(Mode::Browse),
            "Review" => Some(Mode::Review),
            _ => None,
        }
    }
}

/// A unit that was launched for a learner: what the rules on its session look at.
#[derive(Drop)]
pub struct Launch {
    pub session: Id,
    pub registration: Id,
    /// Who the learner is.
    pub actor: Ifi,
    /// The id under which the store knows the unit.
    pub activity: Iri,
    /// The id that the unit's publisher gave it.
    pub publisher: Iri,
    pub mode: Mode,
    /// The score from 0 to 1 that passes the unit, as the course spells it.
    pub mastery: Option<Number>,
}

impl Keyed<Id> for Launch {
    ghost use Rattle.cmi5_course.specs.Launches.{session_of};

    ghost key = { session_of };

    fn key(&self) -> &Id {
        &self.session
    }

    fn key_copy(&self) -> Result<Id, AllocError> {
        Ok(self.session)
    }
}
