ghost use Rattle.std.specs.Prelude.{◌≡◌, IfOk};

use lrs_agents::Ifi;
use lrs_json::{Memory, Text};
use lrs_names::Id;

/// What a list of statements is searched by: one of the things that a statement has.
#[derive(PartialEq, Eq, PartialOrd, Ord, Drop)]
pub enum Key {
    /// Its id.
    Statement(Id),
    /// The id of its verb, an IRI.
    Verb(Text),
    /// The id of the Activity that is its object, an IRI.
    Activity(Text),
    /// The same, or that of an activity in one of the related roles.
    RelatedActivity(Text),
    /// The identifier of who takes part in it as actor or object, or as a member of one.
    Agent(Ifi),
    /// The same, or that of who takes part in one of the related roles, its authority among them.
    RelatedAgent(Ifi),
    /// The registration of its context.
    Registration(Id),
    /// The number of the provider under whose authority it stands.
    Provider(u32),
    /// The id of the statement to which it refers.
    Reference(Id),
    /// The id of the statement that it voids.
    Voiding(Id),
    /// That it refers to a statement.
    AnyReference,
}

impl Key {
    /// A copy of its own.
    pub fn copy(&self) -> Result<Key, Memory>
        ensures { IfOk result (λ key. key ≡ self.now) }
    {
        match self {
            Key::Statement(id) => Ok(Key::Statement(*id)),
            Key::Verb(id) => Ok(Key::Verb(id.clone()?)),
            Key::Activity(id) => Ok(Key::Activity(id.clone()?)),
            Key::RelatedActivity(id) => Ok(Key::RelatedActivity(id.clone()?)),
            Key::Agent(ifi) => Ok(Key::Agent(ifi.copy()?)),
            Key::RelatedAgent(ifi) => Ok(Key::RelatedAgent(ifi.copy()?)),
            Key::Registration(id) => Ok(Key::Registration(*id)),
            Key::Provider(number) => Ok(Key::Provider(*number)),
            Key::Reference(id) => Ok(Key::Reference(*id)),
            Key::Voiding(id) => Ok(Key::Voiding(*id)),
            Key::AnyReference => Ok(Key::AnyReference),
        }
    }
}
