// The members of a statement.
ghost use Rattle.std.specs.Prelude.{◌≡◌, option_map, MatchOption, IsSomeAnd, ℕ, List, Some, None, false};
ghost use Rattle.lrs_decimal.specs.Values.{HasValue};
ghost use Rattle.lrs_json.specs.View.{view};
ghost use Rattle.lrs_names.specs.Members.{has_member};
ghost use Rattle.lrs_decimal.specs.Range.{is_decimal};
ghost use Rattle.xapi_properties.specs.Members.{id_in, own_id, verb_of, registration_in, registration_of, reference_in, target_of, activity_in, activity_of, extension_of, boolean_in, member_boolean, result_boolean, scaled_of, has_duration};

use lrs_decimal::Decimal;
use lrs_json::{Text, Tree};
use lrs_names::{Id, has_member, text_under};
use xapi_rules::{Kind, spelling_under};

fn id_in(tree: &Tree) -> Option<Id>
    ensures { result ≡ id_in (view tree.now) }
{
    match tree {
        Tree::Words(text) => Id::read(text.as_bytes()),
        _ => None,
    }
}

/// The id that a statement gives itself, if it is a UUID.
pub fn own_id(statement: &Tree) -> Option<Id>
    ensures { result ≡ own_id (view statement.now) }
{
    match statement.get("id") {
        Some(id) => id_in(id),
        None => None,
    }
}

/// The id of its verb, an IRI.
#[tactic(auto, unfolding(crate::specs::Members::verb_of))]
pub fn verb_of(statement: &Tree) -> &str
    ensures { result.now ≡ verb_of (view statement.now) }
{
    let Some(verb) = statement.get("verb") else {
        return "";
    };
    match text_under(verb, "id") {
        Some(id) => id.as_str(),
        None => "",
    }
}

fn registration_in(context: &Tree) -> Option<Id>
    ensures { result ≡ registration_in (view context.now) }
{
    match context.get("registration") {
        Some(id) => id_in(id),
        None => None,
    }
}

/// The registration that its context names, a UUID.
#[tactic(auto, unfolding(crate::specs::Members::registration_of))]
pub fn registration_of(statement: &Tree) -> Option<Id>
    ensures { result ≡ registration_of (view statement.now) }
{
    match statement.get("context") {
        Some(context) => registration_in(context),
        None => None,
    }
}

fn reference_in(object: &Tree) -> Option<Id>
    ensures { result ≡ reference_in (view object.now) }
{
    match (object, Kind::of(object)) {
        (Tree::Object(_), Kind::StatementRef) => own_id(object),
        _ => None,
    }
}

/// The statement to which the object refers, if it is a StatementRef.
#[tactic(auto, unfolding(crate::specs::Members::target_of))]
pub fn target_of(statement: &Tree) -> Option<Id>
    ensures { result ≡ target_of (view statement.now) }
{
    match statement.get("object") {
        Some(object) => reference_in(object),
        None => None,
    }
}

fn activity_in(object: &Tree) -> Option<&Text>
    ensures { option_map (λ t. t.now) result ≡ activity_in (view object.now) }
{
    if Kind::of(object).is_activity() {
        text_under(object, "id")
    } else {
        None
    }
}

/// The id of the Activity that is its object, an IRI.
#[tactic(auto, unfolding(crate::specs::Members::activity_of))]
pub fn activity_of(statement: &Tree) -> Option<&Text>
    ensures { option_map (λ t. t.now) result ≡ activity_of (view statement.now) }
{
    match statement.get("object") {
        Some(object) => activity_in(object),
        None => None,
    }
}

/// What the extension of its context of that name holds.
#[tactic(auto, unfolding(crate::specs::Members::extension_of))]
pub fn extension_of<'a>(statement: &'a Tree, id: &str) -> Option<&'a Tree>
    ensures { option_map (λ t. view t.now) result ≡ extension_of id.now (view statement.now) }
{
    let Some(context) = statement.get("context") else {
        return None;
    };
    let Some(extensions) = context.get("extensions") else {
        return None;
    };
    extensions.get(id)
}

fn boolean_in(tree: &Tree) -> Option<bool>
    ensures { result ≡ boolean_in (view tree.now) }
{
    match tree {
        Tree::Bool(value) => Some(*value),
        _ => None,
    }
}

fn member_boolean(tree: &Tree, name: &str) -> Option<bool>
    ensures { result ≡ member_boolean name.now (view tree.now) }
{
    match tree.get(name) {
        Some(value) => boolean_in(value),
        None => None,
    }
}

/// What its result says under that name, if it is a truth value.
#[tactic(auto, unfolding(crate::specs::Members::result_boolean))]
pub fn result_boolean(statement: &Tree, name: &str) -> Option<bool>
    ensures { result ≡ result_boolean name.now (view statement.now) }
{
    match statement.get("result") {
        Some(outcome) => member_boolean(outcome, name),
        None => None,
    }
}

/// How the scaled score of its result is spelled.
#[tactic(auto, unfolding(crate::specs::Members::scaled_of))]
pub fn scaled_spelling(statement: &Tree) -> Option<&[u8]>
    ensures { option_map (λ s. s.now) result ≡ scaled_of (view statement.now) }
{
    let Some(outcome) = statement.get("result") else {
        return None;
    };
    let Some(score) = outcome.get("score") else {
        return None;
    };
    spelling_under(score, "scaled")
}

pub fn scaled_of(statement: &Tree) -> Option<Decimal>
    ensures { MatchOption result ((s : List ℕ) → scaled_of (view statement.now) ≡ Some s → is_decimal s ≡ false)
        (λ d. IsSomeAnd (scaled_of (view statement.now)) (λ s. HasValue d s)) }
{
    match scaled_spelling(statement) {
        Some(spelling) => Decimal::of(spelling),
        None => None,
    }
}

/// Whether its result has a duration.
#[tactic(auto, unfolding(crate::specs::Members::has_duration))]
pub fn has_duration(statement: &Tree) -> bool
    ensures { result ≡ has_duration (view statement.now) }
{
    match statement.get("result") {
        Some(outcome) => has_member(outcome, "duration"),
        None => false,
    }
}
