ghost use Rattle.std.specs.Prelude.{◌≡◌};
ghost use Rattle.lrs_json.specs.View.{view};
ghost use Rattle.xapi_values.specs.Nested.{is_nested};

use crate::Kind;
use lrs_json::Tree;

/// Whether the object of a statement is a SubStatement (xAPI 1.0.3, part two, section 2.4.4.3).
pub fn is_nested(object: &Tree) -> bool
    ensures { result ≡ is_nested (view object.now) }
{
    matches!(Kind::of(object), Kind::SubStatement)
}
