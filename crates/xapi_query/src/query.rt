use lrs_json::Text;
use lrs_names::{Id, Iri};
use lrs_time::Instant;
use xapi_statement::{Format, Ifi};

/// What was given as a parameter: its text, and what that means.
#[derive(Drop)]
pub struct Given<T> {
    /// As it was given, which is how a link repeats it.
    pub text: Text,
    pub value: T,
}

/// Which statements are asked for as a list, in which order and form (xAPI 1.0.3, part three, section 2.1.3). What
/// isn't given asks nothing.
#[derive(Drop)]
pub struct Query {
    /// An agent or a group of this identifier takes part.
    pub agent: Option<Given<Ifi>>,
    /// The verb's id.
    pub verb: Option<Iri>,
    /// The id of the Activity that is the object.
    pub activity: Option<Iri>,
    /// The context's registration.
    pub registration: Option<Id>,
    /// Who has another part than that of the actor or the object counts too.
    pub related_agents: bool,
    /// Other activities than the object count too.
    pub related_activities: bool,
    /// Stored later than this.
    pub since: Option<Given<Instant>>,
    /// Stored at this or before.
    pub until: Option<Given<Instant>>,
    /// How many statements a page has at most: 1 to `MOST_OF_PAGE`.
    pub page: u32,
    /// The oldest first, else the newest.
    pub ascending: bool,
    /// The form of each statement.
    pub format: Format,
}

/// How many statements a page has at most where no fewer are asked for.
pub const MOST_OF_PAGE: u32 = 100;
