ghost use Rattle.std.specs.Prelude.{◌≡◌};
ghost use Rattle.xapi_query.specs.Filters.{is_of_provider, is_registered, sees};

use lrs_names::Id;
use xapi_statement::{Authority, HeldStatement};

/// What a caller sees of the statements.
#[derive(Clone, Copy, PartialEq, Eq)]
pub enum Sight {
    /// No statement.
    Nothing,
    /// Each statement.
    All,
    /// Those under the authority of the provider of that number.
    Provider(u32),
    /// Those whose context names that registration.
    Registration(Id),
}

/// Whether a caller of that sight sees the statement.
pub fn sees(sight: &Sight, statement: &HeldStatement) -> bool
    ensures { result ≡ sees sight.now statement.now }
{
    match sight {
        Sight::Nothing => false,
        Sight::All => true,
        Sight::Provider(number) => is_of_provider(*number, statement.authority()),
        Sight::Registration(id) => is_registered(id, statement),
    }
}

fn is_of_provider(number: u32, authority: &Authority) -> bool
    ensures { result ≡ is_of_provider number authority.now }
{
    match authority {
        Authority::Admin | Authority::Session(_) | Authority::Desk => false,
        Authority::Provider {
            number: own,
            name: _,
        } => *own == number,
    }
}

// Whether the statement's context names that registration.
fn is_registered(id: &Id, statement: &HeldStatement) -> bool
    ensures { result ≡ is_registered id.now statement.now }
{
    match statement.registration() {
        Some(own) => own == *id,
        None => false,
    }
}
