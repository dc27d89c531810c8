// The token of one worker.
ghost use Rattle.std.specs.Prelude.{◌≡◌, [], length};
ghost use Rattle.lrs_turn.specs.Views.{view_of};

use crate::view::View;
use atomic_table::{Badge, Seat};
use std::marker::Model;

/// The token of one worker, with what it knows of the one list of records. It can't be copied, and one that is dropped
/// never comes back: the turns can't be closed then.
#[derive(Drop)]
pub struct Pass<T: Drop> {
    pub(crate) badge: Badge<View<T>>,
    /// How many records the front has.
    pub(crate) seen: u64,
}

impl<T: Drop> Model for Pass<T> {
    ghost use Rattle.lrs_turn.specs.Passes.{Pass as SpecPass};
    ghost use Rattle.lrs_turn.specs.Views.{pass_in, IsPass};

    ghost Value = { SpecPass T };

    ghost view = { λ p. pass_in p.badge.table_id p.badge.views };

    ghost invariant = { λ p. IsPass p.badge.table_id p.badge.views p.seen };
}

impl<T: Drop> Pass<T> {
    /// The number of records of its front: so many records of the one list the worker has seen.
    pub fn front(&self) -> u64
        ensures { result ≡ length self.now.front }
    {
        self.seen
    }

    // The seat that it is at the table.
    pub(crate) fn into_seat<S: Drop>(self) -> Seat<Option<S>, View<T>>
        ensures table { result.table_id ≡ self.turns.id }
        ensures seat { result.me ≡ (view_of self, []) }
    {
        self.badge.into_seat()
    }
}
