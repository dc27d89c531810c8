// What is read of a tree.
ghost use Rattle.std.specs.Prelude.{◌≡◌, map, option_map};
ghost use Rattle.lrs_json.specs.View.{view, elements_of};
ghost use Rattle.lrs_json.specs.Parts.{items_of};
ghost use Rattle.xapi_query.specs.XapiStatementStatement.{activity_in};

use lrs_json::{Text, Tree};
use lrs_names::text_under;
use xapi_values::Kind;

/// The items of an array. Nothing else has any.
pub fn items_in(tree: &Tree) -> &[Tree]
    ensures { elements_of (map view result.now) ≡ items_of (view tree.now) }
{
    match tree {
        Tree::List(items) => items.as_slice(),
        _ => &[],
    }
}

/// The id of the Activity that the tree is, an IRI.
pub fn activity_in(tree: &Tree) -> Option<&Text>
    ensures { option_map (λ t. t.now) result ≡ activity_in (view tree.now) }
{
    if Kind::of(tree).is_activity() {
        text_under(tree, "id")
    } else {
        None
    }
}
