// The unit that a launch, a waiver or an abandoned session speaks of.
ghost use Rattle.std.specs.Prelude.{◌≡◌, ◌<◌, length, option_map, IfOk, IfSome};
ghost use Rattle.lrs_history.specs.Cmi5LaunchAddresses.{IsAddress};
ghost use Rattle.lrs_history.specs.Launches.{activity_at, target, target_at, target_in};
ghost use Rattle.lrs_made.specs.Lent.{IsTargetOf, enrolled_of, seen_target};
ghost use Rattle.lrs_parts.specs.Parts.{state_of};

use crate::enrolments::enrolled;
use cmi5_course::Unit;
use cmi5_launch::activity_id;
use lrs_json::Memory;
use lrs_names::{Id, Iri};
use lrs_parts::{Edition, HeldRegistration, Parts};
use std::alloc::Global;

/// A unit of a registration's edition, its index among the nodes, and the address that the store's own names begin
/// with: all lent by the parts.
#[derive(Clone, Copy)]
pub struct LentTarget<'a> {
    pub base: &'a Iri,
    pub registration: &'a HeldRegistration,
    pub edition: &'a Edition,
    pub index: u32,
    /// The id that its publisher gave it.
    pub publisher: &'a Iri,
    pub unit: &'a Unit,
}

impl LentTarget<'_> {
    /// The id under which the store knows the unit.
    pub fn activity(&self, alloc: Global) -> Result<Iri, Memory>
        ensures { IfOk result (λ id. id ≡ activity_at (seen_target self.now)) }
    {
        activity_id(
            alloc,
            self.base.text(),
            self.registration.edition,
            self.index,
        )
    }
}

/// The unit of that id in the edition of that registration, if both are there.
pub fn target<'a>(parts: &'a Parts, registration: &Id, publisher: &'a Iri) -> Option<LentTarget<'a>>
    ensures found { option_map seen_target result ≡ target (state_of parts.now) registration.now publisher.now }
    ensures address { IfSome result (λ t. IsAddress t.unit.now.url) }
    ensures lent { IfSome result (λ t. IsTargetOf (state_of parts.now) t) }
{
    match enrolled(parts, registration) {
        Some(known) => target_in(known.base, known.registration, known.edition, publisher),
        None => None,
    }
}

// The unit of that id in that edition.
fn target_in<'a>(
    base: &'a Iri,
    registration: &'a HeldRegistration,
    edition: &'a Edition,
    publisher: &'a Iri,
) -> Option<LentTarget<'a>>
    ensures found { option_map seen_target result
        ≡ target_in base.now registration.now publisher.now edition.now.course }
    ensures address { IfSome result (λ t. IsAddress t.unit.now.url) }
    ensures enrolled { IfSome result (λ t. enrolled_of t
        ≡ record { base = base.now; registration = registration.now; edition = edition.now }) }
    ensures index { IfSome result (λ t. t.index < length edition.now.course.nodes) }
{
    match edition.course().unit(publisher) {
        Some(index) => target_at(base, registration, edition, index, publisher),
        None => None,
    }
}

// The unit of that number, which has that id.
fn target_at<'a>(
    base: &'a Iri,
    registration: &'a HeldRegistration,
    edition: &'a Edition,
    index: u32,
    publisher: &'a Iri,
) -> Option<LentTarget<'a>>
    ensures found { option_map seen_target result
        ≡ target_at base.now registration.now publisher.now edition.now.course index }
    ensures address { IfSome result (λ t. IsAddress t.unit.now.url) }
    ensures enrolled { IfSome result (λ t. enrolled_of t
        ≡ record { base = base.now; registration = registration.now; edition = edition.now }) }
    ensures index { IfSome result (λ t. t.index < length edition.now.course.nodes) }
{
    match edition.course().unit_at(index) {
        Some(unit) => Some(LentTarget {
            base,
            registration,
            edition,
            index,
            publisher,
            unit,
        }),
        None => None,
    }
}
