// The least rule that a member breaks, if it is there.
ghost use Rattle.std.specs.Prelude.{◌≡◌, codes};
ghost use Rattle.lrs_json.specs.View.{view};
ghost use Rattle.lrs_names.specs.Iris.{iri_faults};
ghost use Rattle.lrs_names.specs.Languages.{language_map_faults};
ghost use Rattle.lrs_names.specs.Members.{faults_of_member};
ghost use Rattle.lrs_names.specs.Rules.{least};
ghost use Rattle.xapi_values.specs.Shapes.{extension_faults};

use crate::shapes::broken_extensions;
use lrs_json::Tree;
use lrs_names::{broken_iri, broken_language_map};

/// The rule (6) that the member of that name breaks, which has to be an IRI if it is there.
pub fn broken_iri_at(tree: &Tree, name: &str) -> Option<u8>
    ensures { result ≡ least (faults_of_member name.now iri_faults (view tree.now)) }
{
    match tree.get(name) {
        Some(iri) => broken_iri(iri),
        None => None,
    }
}

/// The rule (14) that the member of that name breaks, which has to be a language map if it is there.
pub fn broken_map_at(tree: &Tree, name: &str) -> Option<u8>
    ensures { result ≡ least (faults_of_member name.now language_map_faults (view tree.now)) }
{
    match tree.get(name) {
        Some(map) => broken_language_map(map),
        None => None,
    }
}

/// The rule (6) that the names in the member `extensions` break, which have to be IRIs.
pub fn broken_extensions_of(tree: &Tree) -> Option<u8>
    ensures { result ≡ least (faults_of_member (codes "extensions") extension_faults (view tree.now)) }
{
    match tree.get("extensions") {
        Some(extensions) => broken_extensions(extensions),
        None => None,
    }
}
