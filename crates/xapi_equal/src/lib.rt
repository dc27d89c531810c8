//! The sameness of xapi_alike, of two `Statement`s. The store compares trees as they were received and doesn't use it.
#![tactic(auto)]

ghost use Rattle.std.specs.Prelude.{◌≡◌};
ghost use Rattle.lrs_json.specs.View.{view};
ghost use Rattle.xapi_alike.specs.Same.{same, IsSameness};

use xapi_alike::same_received;
use xapi_statement::Statement;

/// Whether two statements are the same, as they were received. What doesn't count for that is told of `same_received`.
/// Takes no memory.
pub fn same(a: &Statement, b: &Statement) -> bool
    ensures value { result ≡ same (view a.now.tree) (view b.now.tree) }
    ensures equivalence { IsSameness }
{
    same_received(a.received(), b.received())
}
