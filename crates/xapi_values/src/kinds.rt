ghost use Rattle.std.specs.Prelude.{◌≡◌};
ghost use Rattle.lrs_json.specs.View.{view};

use lrs_json::Tree;
use lrs_names::is_word;

/// What a value says that it is, by its `objectType` (xAPI 1.0.3, part two, section 2.4.4).
#[derive(Clone, Copy, Debug, PartialEq, Eq)]
pub enum Kind {
    /// No `objectType` stands: an Agent or an Activity, by its role.
    Unstated,
    /// The word `Activity`.
    Activity,
    /// The word `Agent`.
    Agent,
    /// The word `Group`.
    Group,
    /// The word `StatementRef`.
    StatementRef,
    /// The word `SubStatement`.
    SubStatement,
    /// Another word, or no string.
    Other,
}

impl Kind {
    ghost use Rattle.xapi_values.specs.Kinds.{kind_of, kind_named, is_activity_kind, is_party_kind, same_kind};

    /// An `objectType` that is no string, or that is none of the five words in their letters, is `Other`.
    #[tactic(auto, unfolding(crate::specs::Kinds::kind_of))]
    pub fn of(tree: &Tree) -> Kind
        ensures { result ≡ kind_of (view tree.now) }
    {
        match tree.get("objectType") {
            Some(kind) => Kind::named(kind),
            None => Kind::Unstated,
        }
    }

    /// Whether it is an Activity in a role that an Activity may have and no Agent without an `objectType`: the
    /// object of a statement, or context activities.
    pub fn is_activity(self) -> bool
        ensures { result ≡ is_activity_kind self }
    {
        matches!(self, Kind::Unstated | Kind::Activity)
    }

    /// Whether it says that it is an Agent or a Group.
    pub fn is_party(self) -> bool
        ensures { result ≡ is_party_kind self }
    {
        matches!(self, Kind::Agent | Kind::Group)
    }

    /// Whether both say the same.
    pub fn same(self, other: Kind) -> bool
        ensures { result ≡ same_kind self other }
    {
        self == other
    }

    fn named(kind: &Tree) -> Kind
        ensures { result ≡ kind_named (view kind.now) }
    {
        if is_word(kind, "Activity") {
            Kind::Activity
        } else if is_word(kind, "Agent") {
            Kind::Agent
        } else if is_word(kind, "Group") {
            Kind::Group
        } else if is_word(kind, "StatementRef") {
            Kind::StatementRef
        } else if is_word(kind, "SubStatement") {
            Kind::SubStatement
        } else {
            Kind::Other
        }
    }
}
