ghost use Rattle.std.specs.Prelude.{◌≡◌};
ghost use Rattle.cmi5_course.specs.Words.{move_on_text, move_on_of, method_text, method_of};

use lrs_json::{Number, Text};

/// What satisfies a unit (cmi5 Quartz, section 13.1.4, `moveOn`).
#[derive(Clone, Copy, Debug, PartialEq, Eq)]
pub enum MoveOn {
    NotApplicable,
    Passed,
    Completed,
    CompletedAndPassed,
    CompletedOrPassed,
}

impl MoveOn {
    /// Its word in courses and in launch data.
    pub fn text(self) -> &'static str
        ensures { result.now ≡ move_on_text self }
    {
        match self {
            MoveOn::NotApplicable => "NotApplicable",
            MoveOn::Passed => "Passed",
            MoveOn::Completed => "Completed",
            MoveOn::CompletedAndPassed => "CompletedAndPassed",
            MoveOn::CompletedOrPassed => "CompletedOrPassed",
        }
    }

    /// The one of that word.
    #[tactic(auto, unfolding(crate::specs::Words::move_on_of))]
    pub fn of(text: &str) -> Option<MoveOn>
        ensures { result ≡ move_on_of text.now }
    {
        match text {
            "NotApplicable" => Some(MoveOn::NotApplicable),
            "Passed" => Some(MoveOn::Passed),
            "Completed" => Some(MoveOn::Completed),
            "CompletedAndPassed" => Some(MoveOn::CompletedAndPassed),
            "CompletedOrPassed" => Some(MoveOn::CompletedOrPassed),
            _ => None,
        }
    }
}

/// How a unit wants to be shown (cmi5 Quartz, section 13.1.4, `launchMethod`).
#[derive(Clone, Copy, Debug, PartialEq, Eq)]
pub enum Method {
    OwnWindow,
    AnyWindow,
}

impl Method {
    /// Its word in courses and in answers to a launch.
    pub fn text(self) -> &'static str
        ensures { result.now ≡ method_text self }
    {
        match self {
            Method::OwnWindow => "OwnWindow",
            Method::AnyWindow => "AnyWindow",
        }
    }

    /// The one of that word.
    #[tactic(auto, unfolding(crate::specs::Words::method_of))]
    pub fn of(text: &str) -> Option<Method>
        ensures { result ≡ method_of text.now }
    {
        match text {
            "OwnWindow" => Some(Method::OwnWindow),
            "AnyWindow" => Some(Method::AnyWindow),
            _ => None,
        }
    }
}

/// A unit that can be launched: an assignable unit (cmi5 Quartz, section 13.1.4).
#[derive(Drop)]
pub struct Unit {
    /// Its address as the course spells it.
    pub url: Text,
    pub move_on: MoveOn,
    /// The score from 0 to 1 that passes it, as the course spells it.
    pub mastery_text: Option<Number>,
    pub method: Method,
    /// What is handed to its content as it is.
    pub parameters: Option<Text>,
    /// What tells that its publisher lets it be used.
    pub entitlement: Option<Text>,
}
