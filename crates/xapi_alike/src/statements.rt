ghost use Rattle.std.specs.Prelude.{◌≡◌};
ghost use Rattle.lrs_json.specs.View.{view};
ghost use Rattle.xapi_alike.specs.Same.{same, IsSameness};

use crate::alike::are_alike;
use crate::role::Role;
use lrs_json::Tree;

/// Whether two statements are the same, by the trees of them that were received. These don't count: the order of an
/// object's members and of a Group's; the statement's own `id`, `stored`, `authority` and `version`; the case of digits
/// in a registration and in the id of a StatementRef; an `objectType` that its role means anyway; one context activity
/// against an array of one; the spelling of equal decimals, and of a `timestamp` of one instant; what a duration has
/// below a hundredth of a second. Takes no memory.
pub fn same_received(a: &Tree, b: &Tree) -> bool
    ensures value { result ≡ same (view a.now) (view b.now) }
    ensures equivalence { IsSameness }
{
    are_alike(Role::Statement, a, b)
}
