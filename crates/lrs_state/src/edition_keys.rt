// What editions are found by.
ghost use Rattle.std.specs.Prelude.{◌≡◌, IfOk};

use lrs_json::{Memory, Text};

/// What an edition is found by: its number, and the id of its course.
#[derive(PartialEq, Eq, PartialOrd, Ord, Drop)]
pub struct EditionKey {
    pub number: u32,
    pub id: Text,
}

impl EditionKey {
    /// With a copy of the id.
    pub fn of(number: u32, id: &Text) -> Result<EditionKey, Memory>
        ensures { IfOk result (λ key. key ≡ record { number = number; id = id.now }) }
    {
        let id = id.clone()?;
        Ok(EditionKey { number, id })
    }
}
