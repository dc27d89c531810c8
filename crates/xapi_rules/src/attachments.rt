// Attachments (xAPI 1.0.3, part two, section 2.4.11).
ghost use Rattle.std.specs.Prelude.{◌≡◌, map};
ghost use Rattle.lrs_json.specs.View.{view, elements_of};
ghost use Rattle.lrs_names.specs.Rules.{least};
ghost use Rattle.xapi_rules.specs.Contexts.{is_attachment, attachment_faults, faults_of_attachments, attachments_faults};

use lrs_json::Tree;
use lrs_names::{has_member, has_only, has_string, lesser, unless};
use xapi_values::numbers::is_count;
use xapi_values::{broken_iri_at, broken_map_at};

#[tactic(auto, unfolding(crate::specs::Contexts::is_attachment))]
fn is_attachment(tree: &Tree) -> bool
    ensures { result ≡ is_attachment (view tree.now) }
{
    has_only(
        tree,
        &[
            "usageType",
            "display",
            "description",
            "contentType",
            "length",
            "sha2",
            "fileUrl",
        ],
    ) && has_member(tree, "usageType")
        && has_member(tree, "display")
        && has_string(tree, "contentType")
        && tree.get("length").is_some_and(is_count)
        && has_string(tree, "sha2")
        && has_member(tree, "fileUrl")
}

#[tactic(auto, using(lrs_names::proofs::RuleLemmas::joined), unfolding(crate::specs::Contexts::attachment_faults))]
fn broken_attachment(tree: &Tree) -> Option<u8>
    ensures { result ≡ least (attachment_faults (view tree.now)) }
{
    let broken = unless(is_attachment(tree), 32);
    let broken = lesser(broken, broken_iri_at(tree, "usageType"));
    let broken = lesser(broken, broken_map_at(tree, "display"));
    let broken = lesser(broken, broken_map_at(tree, "description"));
    lesser(broken, broken_iri_at(tree, "fileUrl"))
}

#[tactic(auto, using(lrs_names::proofs::RuleLemmas::joined), unfolding(crate::specs::Contexts::faults_of_attachments))]
fn broken_items(items: &[Tree]) -> Option<u8>
    ensures { result ≡ least (faults_of_attachments (elements_of (map view items.now))) }
{
    let mut broken = None;
    for item in items {
        broken = lesser(broken, broken_attachment(item));
    }
    broken
}

/// The least rule that attachments break.
#[tactic(auto, using(lrs_names::proofs::RuleLemmas::joined), unfolding(crate::specs::Contexts::attachments_faults))]
pub fn broken_attachments(tree: &Tree) -> Option<u8>
    ensures { result ≡ least (attachments_faults (view tree.now)) }
{
    match tree {
        Tree::List(items) => broken_items(items.as_slice()),
        _ => Some(32),
    }
}
