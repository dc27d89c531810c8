// Roles of a statement, and what is compared there (xAPI 1.0.3, part two, section 2.4).
ghost use Rattle.std.specs.Prelude.{◌≡◌};
ghost use Rattle.xapi_alike.specs.Roles.{is_passed_over, kind_or, kind_at, role_of_kind, role_of_object, role_in_statement, role_in_context, role_of_member, role_of_item, is_unordered, is_plural};

use xapi_values::Kind;

/// What a value is in a statement.
#[derive(Clone, Copy, Debug)]
pub enum Role {
    Statement,
    SubStatement,
    /// The object of either.
    Object,
    /// An Agent or a Group.
    Agent,
    /// The members of a Group.
    GroupMembers,
    Activity,
    /// A StatementRef.
    Reference,
    Context,
    ContextActivities,
    /// One of the four members of context activities.
    Activities,
    /// The result.
    Outcome,
    /// The id of a registration or a statement.
    Id,
    Timestamp,
    Duration,
    /// A value of which nothing is known: only equal decimals are the same there.
    Plain,
}

impl Role {
    /// Whether the member of that name is looked over.
    #[tactic(auto, unfolding(crate::specs::Roles::is_passed_over))]
    pub fn is_passed_over(self, name: &str) -> bool
        ensures { result ≡ is_passed_over self name.now }
    {
        match self {
            Role::Statement => matches!(name, "id" | "stored" | "authority" | "version"),
            Role::Agent | Role::Activity => name == "objectType",
            _ => false,
        }
    }

    /// The kind of an object here that states that kind.
    #[tactic(auto, unfolding(crate::specs::Roles::kind_at))]
    pub fn kind(self, stated: Kind) -> Kind
        ensures { result ≡ kind_at self stated }
    {
        match self {
            Role::Object | Role::Activity | Role::Activities => kind_or(Kind::Activity, stated),
            Role::Agent => kind_or(Kind::Agent, stated),
            _ => Kind::Unstated,
        }
    }

    /// What an object of that kind is here.
    #[tactic(auto, unfolding(crate::specs::Roles::role_of_object))]
    pub fn of_object(self, kind: Kind) -> Role
        ensures { result ≡ role_of_object self kind }
    {
        match self {
            Role::Object => Role::of_kind(kind),
            Role::Activities => Role::Activity,
            Role::GroupMembers | Role::Id | Role::Timestamp | Role::Duration => Role::Plain,
            role => role,
        }
    }

    fn of_kind(kind: Kind) -> Role
        ensures { result ≡ role_of_kind kind }
    {
        match kind {
            Kind::Unstated | Kind::Activity => Role::Activity,
            Kind::Agent | Kind::Group => Role::Agent,
            Kind::StatementRef => Role::Reference,
            Kind::SubStatement => Role::SubStatement,
            Kind::Other => Role::Plain,
        }
    }

    /// What the member of that name is.
    #[tactic(auto, unfolding(crate::specs::Roles::role_of_member))]
    pub fn of_member(self, name: &str) -> Role
        ensures { result ≡ role_of_member self name.now }
    {
        match self {
            Role::Statement | Role::SubStatement => Role::in_statement(name),
            Role::Context => Role::in_context(name),
            Role::Agent if name == "member" => Role::GroupMembers,
            Role::Reference if name == "id" => Role::Id,
            Role::Outcome if name == "duration" => Role::Duration,
            Role::ContextActivities => match name {
                "parent" | "grouping" | "category" | "other" => Role::Activities,
                _ => Role::Plain,
            },
            _ => Role::Plain,
        }
    }

    fn in_statement(name: &str) -> Role
        ensures { result ≡ role_in_statement name.now }
    {
        match name {
            "actor" => Role::Agent,
            "object" => Role::Object,
            "result" => Role::Outcome,
            "context" => Role::Context,
            "timestamp" => Role::Timestamp,
            _ => Role::Plain,
        }
    }

    fn in_context(name: &str) -> Role
        ensures { result ≡ role_in_context name.now }
    {
        match name {
            "registration" => Role::Id,
            "instructor" | "team" => Role::Agent,
            "contextActivities" => Role::ContextActivities,
            "statement" => Role::Reference,
            _ => Role::Plain,
        }
    }

    /// What an item of an array here is.
    #[tactic(auto, unfolding(crate::specs::Roles::role_of_item))]
    pub fn of_item(self) -> Role
        ensures { result ≡ role_of_item self }
    {
        match self {
            Role::GroupMembers => Role::Agent,
            Role::Activities => Role::Activity,
            _ => Role::Plain,
        }
    }

    /// Whether the order of an array here doesn't count.
    pub fn is_unordered(self) -> bool
        ensures { result ≡ is_unordered self }
    {
        matches!(self, Role::GroupMembers)
    }

    /// Whether an object here stands for an array of it.
    pub fn is_plural(self) -> bool
        ensures { result ≡ is_plural self }
    {
        matches!(self, Role::Activities)
    }
}

fn kind_or(default: Kind, stated: Kind) -> Kind
    ensures { result ≡ kind_or default stated }
{
    match stated {
        Kind::Unstated => default,
        kind => kind,
    }
}
