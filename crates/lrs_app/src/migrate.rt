// The command `migrate`.
ghost use Rattle.std.specs.Prelude.{◌≡◌, IfSome};
ghost use Rattle.lrs_app.specs.Disks.{taken_now};
ghost use Rattle.lrs_app.specs.Migrate.{HasMoveCause, MovesStore, ending_of_migration};
ghost use Rattle.lrs_journal.specs.Journal.{IsSynced};
ghost use Rattle.lrs_journal.specs.Store.{IsLimit};

use lrs_console::Ending;
use lrs_disk::Disk;
use lrs_hall::{Desk, MigrateRefused};
use std::alloc::Global;

// How a command ends if no store is moved.
fn unmoved(refused: MigrateRefused) -> Ending
    ensures { result ≡ ending_of_migration refused }
{
    match refused {
        MigrateRefused::NotAStore => Ending::NotAStore,
        MigrateRefused::AlreadyStore => Ending::AlreadyStore,
        MigrateRefused::Foreign => Ending::NotAStore,
        MigrateRefused::Damaged { k } => Ending::Damaged { k },
        MigrateRefused::IllegalEntry { k } => Ending::Damaged { k },
        MigrateRefused::Full { need, limit } => Ending::Full { need, limit },
        MigrateRefused::Failed => Ending::DiskFault,
        MigrateRefused::Memory => Ending::Memory,
    }
}

/// What came of a store that was to be moved.
#[derive(Drop)]
pub(crate) struct Move<D> {
    pub(crate) ending: Ending,
    pub(crate) old: D,
    pub(crate) new: D,
    /// The number of the entries that were moved, or 0 if no store was made.
    pub(crate) length: u64,
}

/// Moves the store of one disk to another, on which a store may be made.
pub(crate) fn migrate_disks<D: Disk>(alloc: Global, old: D, new: D, limit: Option<u64>) -> Move<D>
    requires old { IsSynced D.told D.image old }
    requires new { IsSynced D.told D.image new }
    requires limit { IfSome limit IsLimit }
    ensures moves { MovesStore D.Disk (taken_now D.Disk old) (taken_now D.Disk new) result.old result.new limit
        result.length result.ending }
    ensures cause { HasMoveCause (D.fault_count old) (D.fault_count result.old) (D.fault_count new)
        (D.fault_count result.new) result.ending }
{
    match Desk::migrate(alloc, old, new, limit) {
        Ok(moved) => {
            let length = moved.desk.length();
            // A new store has nothing in doubt, so closing it writes nothing.
            match moved.desk.close() {
                Ok(new) => Move {
                    ending: Ending::Migrated(length),
                    old: moved.old,
                    new,
                    length,
                },
                Err(_) => unreachable!(),
            }
        }
        Err((refused, old, new)) => Move {
            ending: unmoved(refused),
            old,
            new,
            length: 0,
        },
    }
}
