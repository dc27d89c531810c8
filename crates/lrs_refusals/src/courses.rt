// Why a value is no course.
ghost use Rattle.std.specs.Prelude.{◌≡◌, IfOk};
ghost use Rattle.lrs_made.specs.LrsHistoryRefusals.{refused_course};
ghost use Rattle.lrs_json.specs.View.{view};

use cmi5_course::broken_course;
use lrs_json::{Memory, Tree};
use lrs_replies::Refusal;
use lrs_rules::Rule;
use std::alloc::Global;

/// Why a value isn't taken up as a course, whatever the store holds.
pub(crate) fn refused_course(alloc: Global, tree: &Tree) -> Result<Option<Refusal>, Memory>
    ensures { IfOk result (λ refused. refused ≡ refused_course (view tree.now)) }
{
    match broken_course(alloc, tree)? {
        Some(number) => Ok(Some(Refusal::Broken(Rule::K(number)))),
        None => Ok(None),
    }
}
