// What is asked of a value in its written form.
ghost use Rattle.std.specs.Prelude.{◌≡◌, IsTrue};
ghost use Rattle.std.specs.List.{list_all};
ghost use Rattle.lrs_json.specs.Json.{string};
ghost use Rattle.lrs_json.specs.Written.{is_plain};
ghost use Rattle.lrs_names.specs.Members.{has_member};
ghost use Rattle.xapi_values.specs.Kinds.{kind_named, kind_of};
ghost use Rattle.xapi_values.specs.Nested.{is_nested};
ghost use Rattle.xapi_reduced.specs.Reduced.{has_identifier, is_anonymous};

use lrs_json_slices::{Written, WrittenText};
use xapi_values::Kind;

/// What the value says that it is.
#[tactic(auto, unfolding(xapi_values::specs::Kinds::kind_of))]
pub fn kind_of(value: &Written<'_>) -> Kind
    ensures { result ≡ kind_of value.now }
{
    match value.get("objectType") {
        Some(kind) => kind_named(&kind),
        None => Kind::Unstated,
    }
}

fn kind_named(kind: &Written<'_>) -> Kind
    ensures { result ≡ kind_named kind.now }
{
    match kind.text() {
        Some(word) => kind_of_word(&word),
        None => Kind::Other,
    }
}

fn kind_of_word(word: &WrittenText<'_>) -> Kind
    ensures { result ≡ kind_named (string word.now) }
{
    if word.is("Activity") {
        Kind::Activity
    } else if word.is("Agent") {
        Kind::Agent
    } else if word.is("Group") {
        Kind::Group
    } else if word.is("StatementRef") {
        Kind::StatementRef
    } else if word.is("SubStatement") {
        Kind::SubStatement
    } else {
        Kind::Other
    }
}

/// Whether the object of a statement is a SubStatement.
pub fn is_nested(object: &Written<'_>) -> bool
    ensures { result ≡ is_nested object.now }
{
    matches!(kind_of(object), Kind::SubStatement)
}

/// Whether it is a Group that is known by its members alone.
pub fn is_anonymous(party: &Written<'_>) -> bool
    ensures { result ≡ is_anonymous party.now }
{
    match kind_of(party) {
        Kind::Group => !has_identifier(party),
        _ => false,
    }
}

fn has_identifier(party: &Written<'_>) -> bool
    ensures { result ≡ has_identifier party.now }
{
    has_member(party, "mbox")
        || has_member(party, "mbox_sha1sum")
        || has_member(party, "openid")
        || has_member(party, "account")
}

fn has_member(value: &Written<'_>, name: &str) -> bool
    requires { IsTrue (list_all is_plain name.now) }
    ensures { result ≡ has_member name.now value.now }
{
    value.get(name).is_some()
}
