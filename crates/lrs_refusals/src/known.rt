// What is known of the statements of a write.
ghost use Rattle.std.specs.Prelude.{◌≡◌, not};
ghost use Rattle.std.specs.List.{prefix_len};
ghost use Rattle.lrs_refusals.specs.Known.{batch_in, leading_new};

use lrs_ids::IdSupply;
use lrs_json::Items;
use lrs_names::Id;
use lrs_record::Write;
use std::mem;

/// What was found out about the statements of a write, so that it isn't looked up again.
#[derive(Drop)]
pub enum Known {
    /// Nothing yet.
    Nothing,
    /// Whether a statement is held under the id of a put.
    Put { is_held: bool },
    /// How those go that come together.
    Batch(Batch),
}

/// Statements that come together.
#[derive(Drop)]
pub struct Batch {
    /// The id under which each goes.
    pub ids: Items<Id>,
    /// Whether one is held under each of the first of these ids, as far as that was looked up.
    pub held: Items<bool>,
    /// The ids that are left to be made.
    pub supply: IdSupply,
}

impl Known {
    /// How many of the first statements of the write are known not to be held.
    pub fn leading_new(&self, write: &Write) -> usize
        ensures { result ≡ leading_new write.now self.now }
    {
        match (write, self) {
            (Write::Put { .. }, Known::Put { is_held }) => usize::from(!*is_held),
            (Write::Post { .. }, Known::Batch(batch)) => leading_false(batch.held.as_slice()),
            _ => 0,
        }
    }

    /// Gives away what is known of statements that come together.
    pub fn take_batch(&mut self) -> Option<Batch>
        ensures { result ≡ batch_in self.old }
    {
        let known = mem::replace(self, Known::Nothing);
        match known {
            Known::Batch(batch) => Some(batch),
            Known::Nothing => None,
            Known::Put { is_held: _ } => None,
        }
    }
}

// How many of the first ones are false.
fn leading_false(flags: &[bool]) -> usize
    ensures { result ≡ prefix_len not flags.now }
{
    flags.iter().take_while(|flag| !**flag).count()
}
