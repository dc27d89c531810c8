// Whether a unit was waived.
ghost use Rattle.std.specs.Prelude.{◌≡◌, IfOk};
ghost use Rattle.cmi5_session.specs.Cmi5LaunchNames.{waived};
ghost use Rattle.cmi5_verdict.specs.Nodes.{activity_of_node, seen};
ghost use Rattle.cmi5_verdict.specs.Statements.{all_of};
ghost use Rattle.cmi5_verdict.specs.Units.{stands};

use crate::said::said_at;
use crate::{Enrolment, Statements};
use lrs_json::Memory;
use std::alloc::Global;

/// Whether a statement that isn't voided says that the unit of that number was waived. Goes through the registration's
/// statements.
pub fn waived(
    alloc: Global,
    statements: &Statements<'_>,
    enrolment: &Enrolment<'_>,
    index: u32,
) -> Result<bool, Memory>
    ensures { IfOk result (λ told. told ≡ stands (all_of statements.now) enrolment.now.registration.now
        (activity_of_node (seen enrolment.now) index) waived) }
{
    let said = said_at(alloc, statements, enrolment, index as usize)?;
    Ok(said.waived)
}
