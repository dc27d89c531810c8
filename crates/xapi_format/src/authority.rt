ghost use Rattle.std.specs.Prelude.{◌≡◌, ◌↔◌, IfOk, IsTrue};
ghost use Rattle.std.specs.Str.{bytes_eq};

use itoa::Buffer;
use lrs_agents::Ifi;
use lrs_json::{Memory, Text, utf8_text};
use xapi_values::Id;

/// Under whose authority a statement stands.
#[derive(Drop)]
pub enum Authority {
    /// An admin: the operator, or who presents the token of the founding.
    Admin,
    /// The provider of that number, counted from 0 in the order in which providers were made, and its name.
    Provider { number: u32, name: Text },
    /// The session of that id.
    Session(Id),
    /// The store itself, which makes statements at its desk.
    Desk,
}

impl Authority {
    ghost use Rattle.xapi_format.specs.Authorities.{account_name, authority_json, authority_name};
    ghost use Rattle.xapi_format.specs.Party.{is_party};

    /// The home page of the accounts that callers have.
    pub const HOME_PAGE: &'static str = "https://lrs.invalid/callers";

    /// The name that its Agent has.
    pub fn name(&self) -> &str
        ensures { result.now ≡ authority_name self.now }
    {
        match self {
            Authority::Admin => "admin",
            Authority::Provider { number: _, name } => name.as_str(),
            Authority::Session(_) => "session",
            Authority::Desk => "desk",
        }
    }

    /// A copy of its own.
    pub fn copy(&self) -> Result<Authority, Memory>
        ensures { IfOk result (λ authority. authority ≡ self.now) }
    {
        match self {
            Authority::Admin => Ok(Authority::Admin),
            Authority::Provider { number, name } => Ok(Authority::Provider {
                number: *number,
                name: name.clone()?,
            }),
            Authority::Session(id) => Ok(Authority::Session(*id)),
            Authority::Desk => Ok(Authority::Desk),
        }
    }

    /// Whether both are the same. Takes no memory.
    pub fn is_same(&self, other: &Authority) -> bool
        ensures { IsTrue result ↔ (self.now ≡ other.now) }
    {
        are_same(self, other)
    }

    /// Whether its Agent has that identifier. Takes no memory.
    pub fn has_agent(&self, ifi: &Ifi) -> bool
        ensures { result ≡ is_party ifi.now (authority_json self.now) }
    {
        match ifi {
            Ifi::Account { home, name } => {
                home.as_str() == Authority::HOME_PAGE && self.has_account(name.as_str())
            }
            Ifi::Mbox(_) => false,
            Ifi::MboxSha1(_) => false,
            Ifi::OpenId(_) => false,
        }
    }

    fn has_account(&self, name: &str) -> bool
        ensures { result ≡ bytes_eq name.now (account_name self.now) }
    {
        match self {
            Authority::Admin => name == "admin",
            Authority::Provider { number, name: _ } => match name.strip_prefix("provider:") {
                Some(digits) => {
                    let mut buffer = Buffer::new();
                    digits == buffer.format(*number)
                }
                None => false,
            },
            Authority::Session(id) => match name.strip_prefix("session:") {
                Some(text) => text == utf8_text(&id.text()),
                None => false,
            },
            Authority::Desk => name == "desk",
        }
    }
}

fn are_same(a: &Authority, b: &Authority) -> bool
    ensures { IsTrue result ↔ (a.now ≡ b.now) }
{
    match (a, b) {
        (Authority::Admin, Authority::Admin) => true,
        (
            Authority::Provider { number, name },
            Authority::Provider {
                number: other,
                name: same,
            },
        ) => *number == *other && name == same,
        (Authority::Session(id), Authority::Session(other)) => *id == *other,
        (Authority::Desk, Authority::Desk) => true,
        _ => false,
    }
}
