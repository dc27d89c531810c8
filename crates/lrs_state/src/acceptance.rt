use cmi5_course::Method;
use lrs_json::{Items, Text};
use lrs_names::Id;

/// What is said to the caller of an entry beyond that it is kept.
#[derive(Drop)]
pub enum Acceptance {
    /// Nothing.
    Plain,
    /// The ids under which its own statements go.
    Ids(Items<Id>),
    /// The index of the provider that it makes, and its token.
    Provider {
        index: usize,
        token: Text,
    },
    /// The id of the course that stands, and the number of its newest edition.
    Course {
        id: Text,
        edition: u32,
    },
    /// The id of the registration that it makes.
    Registration(Id),
    /// The session of the launch that it makes, how its unit wants to be shown, and where its content is opened.
    Launch {
        session: Id,
        method: Method,
        url: Text,
    },
    /// The sessions that it abandons, in the order of their launches.
    Swept(Items<Id>),
    /// The token that it gives away.
    Token(Text),
    /// That no token is given away any more, because it was once.
    KeyUsed,
    /// That no token is given away any more, because the session is closed.
    SessionClosed,
}
