// Members by their names: those that the store writes itself, and those that are kept.
ghost use Rattle.std.specs.Prelude.{◌≡◌};
ghost use Rattle.xapi_format.specs.Completed.{added_names};
ghost use Rattle.xapi_format.specs.LrsAgentsAgents.{identifiers};
ghost use Rattle.lrs_names.specs.Members.{is_one_of};

use lrs_json_slices::WrittenText;

/// Whether the store writes the member of that name itself.
pub fn is_added(name: &WrittenText<'_>) -> bool
    ensures { result ≡ is_one_of added_names name.now }
{
    name.is("id")
        || name.is("timestamp")
        || name.is("stored")
        || name.is("authority")
        || name.is("version")
}

/// The names of the members that are kept of a value: those that identify it.
#[derive(Clone, Copy, Debug, PartialEq)]
pub enum KeptNames {
    OfVerb,
    OfActivity,
    /// Of a Group that is known by its members alone.
    OfGroup,
    /// Of an Agent or an identified Group.
    OfAgent,
}

impl KeptNames {
    ghost use Rattle.xapi_reduced.specs.Direct.{kept_names};

    /// Whether that name is one of them.
    pub fn has(self, name: &WrittenText<'_>) -> bool
        ensures { result ≡ is_one_of (kept_names self) name.now }
    {
        match self {
            KeptNames::OfVerb => name.is("id"),
            KeptNames::OfActivity => name.is("objectType") || name.is("id"),
            KeptNames::OfGroup => name.is("objectType") || name.is("member"),
            KeptNames::OfAgent => name.is("objectType") || is_identifier(name),
        }
    }
}

fn is_identifier(name: &WrittenText<'_>) -> bool
    ensures { result ≡ is_one_of identifiers name.now }
{
    name.is("mbox") || name.is("mbox_sha1sum") || name.is("openid") || name.is("account")
}
