// What the parameters and the part of the path of a request give.
ghost use Rattle.std.specs.Prelude.{◌≡◌, ◌∷◌, ◌<◌, length};

use lrs_json::Text;
use lrs_names::Id;
use xapi_keys::{StateKey, WantedDocuments};
use xapi_parameters::DroppedDocuments;
use xapi_query::{MoreLink, Wanted};

/// What the parameters give.
#[derive(Drop)]
pub(crate) enum ParameterValue {
    /// They aren't looked at, or there are none.
    Nothing,
    /// What a GET of statements asks for.
    Wanted(Wanted),
    /// A position in a list of statements.
    Link(MoreLink),
    /// The id of a statement.
    Id(Id),
    /// The key of a state document.
    Document(StateKey),
    /// What a GET of state documents asks for.
    Documents(WantedDocuments),
    /// The state documents that are dropped.
    Dropped(DroppedDocuments),
}

/// What the part of the path gives.
#[derive(Drop)]
pub(crate) enum PartValue {
    /// It isn't looked at, or there is none.
    Nothing,
    /// It, as it is sent.
    Text(Text),
    /// The id that it spells.
    Id(Id),
}

/// Takes the first text.
pub(crate) fn first(texts: &mut Vec<Text>) -> Text
    requires { 0 < length texts.old.items }
    ensures { texts.old.items ≡ result ∷ texts.new.items }
{
    texts.remove(0)
}
