// No null stands outside extensions (xAPI 1.0.3, part two, section 2.2).
ghost use Rattle.std.specs.Prelude.{◌≡◌, map};
ghost use Rattle.lrs_json.specs.View.{view, member_view, members_of, elements_of};
ghost use Rattle.xapi_rules.specs.Nulls.{role_of_member, role_of_item, role_of_activity, role_of_object, has_null, items_have_null, members_have_null};

use lrs_json::{Member, Tree};
use xapi_values::Kind;

/// What the role of a value in a statement makes of it, as far as it tells which extensions are free.
#[derive(Clone, Copy, Debug, PartialEq, Eq)]
pub enum NullRole {
    Plain,
    /// A statement or a SubStatement.
    Statement,
    /// The object of one.
    Object,
    /// An Activity, which may have a definition.
    Described,
    /// A definition or a result.
    Holder,
    Context,
    ContextActivities,
    /// One of the four members of context activities.
    Activities,
    Extensions,
}

impl NullRole {
    #[tactic(auto, unfolding(crate::specs::Nulls::role_of_member))]
    fn of_member(self, name: &str) -> NullRole
        ensures { result ≡ role_of_member self name.now }
    {
        match self {
            NullRole::Statement => match name {
                "object" => NullRole::Object,
                "result" => NullRole::Holder,
                "context" => NullRole::Context,
                _ => NullRole::Plain,
            },
            NullRole::Described => match name {
                "definition" => NullRole::Holder,
                _ => NullRole::Plain,
            },
            NullRole::Holder => match name {
                "extensions" => NullRole::Extensions,
                _ => NullRole::Plain,
            },
            NullRole::Context => match name {
                "extensions" => NullRole::Extensions,
                "contextActivities" => NullRole::ContextActivities,
                _ => NullRole::Plain,
            },
            NullRole::ContextActivities => match name {
                "parent" | "grouping" | "category" | "other" => NullRole::Activities,
                _ => NullRole::Plain,
            },
            NullRole::Plain | NullRole::Object | NullRole::Activities | NullRole::Extensions =>
                NullRole::Plain,
        }
    }

    fn of_item(self) -> NullRole
        ensures { result ≡ role_of_item self }
    {
        match self {
            NullRole::Activities => NullRole::Described,
            _ => NullRole::Plain,
        }
    }

    fn of_activity(kind: Kind) -> NullRole
        ensures { result ≡ role_of_activity kind }
    {
        if kind.is_activity() {
            NullRole::Described
        } else {
            NullRole::Plain
        }
    }

    fn of_object(self, kind: Kind) -> NullRole
        ensures { result ≡ role_of_object self kind }
    {
        match (self, kind) {
            (NullRole::Object, Kind::SubStatement) => NullRole::Statement,
            (NullRole::Object | NullRole::Described | NullRole::Activities, kind) =>
                NullRole::of_activity(kind),
            (role, _) => role,
        }
    }
}

/// Whether a null stands in the tree, if that is its role, outside what is free there.
#[cycle(nulls)]
pub fn has_null(tree: &Tree, role: NullRole) -> bool
    ensures { result ≡ has_null role (view tree.now) }
{
    match tree {
        Tree::Null => true,
        Tree::Bool(_) | Tree::Number(_) | Tree::Words(_) => false,
        Tree::List(items) => items_have_null(items.as_slice(), role.of_item()),
        Tree::Object(members) => {
            role != NullRole::Extensions
                && members_have_null(members.as_slice(), role.of_object(Kind::of(tree)))
        }
    }
}

#[cycle(nulls)]
fn items_have_null(items: &[Tree], role: NullRole) -> bool
    ensures { result ≡ items_have_null role (elements_of (map view items.now)) }
{
    for item in items {
        if has_null(item, role) {
            return true;
        }
    }
    false
}

#[cycle(nulls)]
fn members_have_null(members: &[Member], role: NullRole) -> bool
    ensures { result ≡ members_have_null role (members_of (map member_view members.now)) }
{
    for member in members {
        if has_null(&member.value, role.of_member(member.name.as_str())) {
            return true;
        }
    }
    false
}
