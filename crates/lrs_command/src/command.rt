ghost use Rattle.std.specs.Prelude.{◌≡◌};
ghost use Rattle.lrs_command.specs.Areas.{read_area};

use lrs_names::Id;
use lrs_record::{Area, Write};
use lrs_rules::Rule;
use xapi_keys::WantedDocuments;
use xapi_query::{MoreLink, Wanted};

/// The status of a request that breaks a rule (RFC 9110, section 15.5.1).
pub const BAD_REQUEST: u16 = 400;

/// The status where nothing is found (RFC 9110, section 15.5.5).
pub const NOT_FOUND: u16 = 404;

/// The status of content that is too large (RFC 9110, section 15.5.14).
pub const CONTENT_TOO_LARGE: u16 = 413;

/// What a caller asks.
#[derive(Drop)]
pub enum Command {
    /// What is kept if it is accepted.
    Write(Write),
    /// What is only answered.
    Read(Read),
    /// A request whose form is refused with that status and that rule, once its caller has been looked at.
    Refused { area: Area, status: u16, rule: Rule },
}

/// A question.
#[derive(Drop)]
pub enum Read {
    /// Asks for statements.
    Statements(Wanted),
    /// Asks for the next page of a list.
    More(MoreLink),
    /// Asks for a state document, or for the ids of some.
    Documents(WantedDocuments),
    /// Asks for the document of a profile, of which none is ever held.
    Profile,
    /// Asks for the versions of xAPI that are spoken.
    About,
    /// Asks how far the learner of a registration has come in its course.
    Registration(Id),
}

impl Read {
    /// The area of the question.
    pub fn area(&self) -> Area
        ensures { result ≡ read_area self.now }
    {
        match self {
            Read::Statements(_) | Read::More(_) | Read::Documents(_) | Read::Profile => Area::Store,
            Read::About => Area::Free,
            Read::Registration(_) => Area::Desk,
        }
    }
}
