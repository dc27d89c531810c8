// Statements that cmi5 defines.
ghost use Rattle.std.specs.Prelude.{◌≡◌};
ghost use Rattle.cmi5_session.specs.Own.{is_cmi5_defined, says};
ghost use Rattle.lrs_json.specs.View.{view};

use cmi5_launch::names::CMI5_CATEGORY;
use cmi5_launch::{has_context_activity, verb_of};
use lrs_json::Tree;

/// Whether cmi5 defines what a statement means (cmi5 Quartz, section 9.6.2.1).
pub fn is_cmi5_defined(statement: &Tree) -> bool
    ensures { result ≡ is_cmi5_defined (view statement.now) }
{
    has_context_activity(statement, "category", CMI5_CATEGORY)
}

/// Whether it is a statement of that verb that cmi5 defines.
pub fn says(verb: &str, statement: &Tree) -> bool
    ensures { result ≡ says verb.now (view statement.now) }
{
    verb_of(statement) == verb && is_cmi5_defined(statement)
}
