// The command `init`.
ghost use Rattle.std.specs.Prelude.{◌≡◌};
ghost use Rattle.lrs_parts.specs.Founding.{IsToken, IsBase};
ghost use Rattle.lrs_app.specs.Steps.{ending_of_found};
ghost use Rattle.lrs_app.specs.Disks.{taken_now};
ghost use Rattle.lrs_app.specs.Run.{InitOnDisk, HasEndingCause};
ghost use Rattle.lrs_hall.specs.LrsFoldOwn.{founding_entry};
ghost use Rattle.lrs_journal.specs.Journal.{IsSynced};
ghost use Rattle.lrs_journal.specs.Store.{IsLimit};

use lrs_console::Ending;
use lrs_disk::Disk;
use lrs_hall::{Desk, FoundRefused};
use lrs_json::Text;
use std::alloc::Global;

// How a command ends if no store is made.
fn unfounded(refused: FoundRefused) -> Ending
    ensures { result ≡ ending_of_found refused }
{
    match refused {
        FoundRefused::AlreadyStore => Ending::AlreadyStore,
        FoundRefused::Foreign => Ending::NotAStore,
        FoundRefused::Full { need, limit } => Ending::Full { need, limit },
        FoundRefused::Failed => Ending::DiskFault,
        FoundRefused::Memory => Ending::Memory,
    }
}

/// Makes a store on a disk. The number is that of the history's entries, or 0 if no store was made.
pub(crate) fn init_disk<D: Disk>(
    alloc: Global,
    disk: D,
    admin: &Text,
    base: &Text,
    limit: u64,
    clock: u64,
) -> (Ending, D, u64)
    requires settled { IsSynced D.told D.image disk }
    requires limit { IsLimit limit }
    requires admin { IsToken admin.now }
    requires base { IsBase base.now }
    ensures ends { InitOnDisk D.Disk (taken_now D.Disk disk) result.1 limit (founding_entry admin.now base.now clock)
        result.2 result.0 }
    ensures cause { HasEndingCause (D.fault_count disk) (D.fault_count result.1) 0 0 result.0 }
{
    match Desk::found(alloc, disk, limit, admin, base, clock) {
        // A new store has nothing in doubt, so closing it writes nothing.
        Ok(desk) => match desk.close() {
            Ok(disk) => (Ending::Founded, disk, 1),
            Err(_) => unreachable!(),
        },
        Err((refused, disk)) => (unfounded(refused), disk, 0),
    }
}
