ghost use Rattle.std.specs.Prelude.{◌≡◌, Some, IfSome};
ghost use Rattle.cmi5_course.specs.Reasons.{reason_of, reason_text};

/// Why a unit was waived (cmi5 Quartz, section 9.5.5.2).
#[derive(Clone, Copy, Debug, PartialEq, Eq)]
pub enum Reason {
    TestedOut,
    EquivalentAu,
    EquivalentOutsideActivity,
    Administrative,
}

impl Reason {
    /// Its text in requests and in waived statements.
    #[tactic(auto, unfolding(crate::specs::Reasons::reason_of))]
    pub fn text(self) -> &'static str
        ensures text { result.now ≡ reason_text self }
        ensures read_back { reason_of result.now ≡ Some self }
    {
        match self {
            Reason::TestedOut => "Tested Out",
            Reason::EquivalentAu => "Equivalent AU",
            Reason::EquivalentOutsideActivity => "Equivalent Outside Activity",
            Reason::Administrative => "Administrative",
        }
    }

    /// The one of that text.
    #[tactic(auto, unfolding(crate::specs::Reasons::reason_of))]
    pub fn of(text: &str) -> Option<Reason>
        ensures value { result ≡ reason_of text.now }
        ensures spelled { IfSome result (λ reason. reason_text reason ≡ text.now) }
    {
        match text {
            "Tested Out" => Some(Reason::TestedOut),
            "Equivalent AU" => Some(Reason::EquivalentAu),
            "Equivalent Outside Activity" => Some(Reason::EquivalentOutsideActivity),
            "Administrative" => Some(Reason::Administrative),
            _ => None,
        }
    }
}
