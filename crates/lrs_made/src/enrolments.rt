// Registrations with their editions.
ghost use Rattle.std.specs.Prelude.{◌≡◌, option_map, IfOk, IfSome};
ghost use Rattle.lrs_history.specs.Cmi5VerdictNodes.{seen};
ghost use Rattle.lrs_history.specs.Enrolments.{enrolled, enrolled_as, enrolled_from, enrolment_of, verdicts_of};
ghost use Rattle.lrs_made.specs.Lent.{IsLentBy, seen_enrolled};
ghost use Rattle.lrs_parts.specs.Parts.{state_of};
ghost use Rattle.lrs_history.specs.LrsStateFoundingFounding.{Founding as SpecFounding};

use crate::held::{edition_of, founding_of, registration_under};
use lrs_json::Memory;
use lrs_names::{Id, Iri};
use lrs_parts::{Edition, Enrolment, HeldRegistration, Parts};
use std::alloc::Global;

/// A registration, its edition, and the address that the store's own names begin with: all lent by the parts.
#[derive(Clone, Copy)]
pub struct LentEnrolled<'a> {
    pub base: &'a Iri,
    pub registration: &'a HeldRegistration,
    pub edition: &'a Edition,
}

impl LentEnrolled<'_> {
    /// What a verdict looks at.
    pub(crate) fn enrolment(&self) -> Enrolment<'_>
        ensures { seen result ≡ enrolment_of (seen_enrolled self.now) }
    {
        let registration = self.registration;
        let edition = self.edition;
        Enrolment {
            registration: &registration.id,
            base: self.base,
            course: registration.edition,
            nodes: edition.course().nodes(),
        }
    }
}

/// The registration of that id with its edition, if both are there.
pub fn enrolled<'a>(parts: &'a Parts, id: &Id) -> Option<LentEnrolled<'a>>
    ensures found { option_map seen_enrolled result ≡ enrolled (state_of parts.now) id.now }
    ensures lent { IfSome result (λ e. IsLentBy (state_of parts.now) e) }
{
    match registration_under(parts, id) {
        Some(registration) => enrolled_as(parts, registration),
        None => None,
    }
}

/// A registration with its edition, if that is there. The registration may be one that is yet to be held.
pub fn enrolled_as<'a>(
    parts: &'a Parts,
    registration: &'a HeldRegistration,
) -> Option<LentEnrolled<'a>>
    ensures found { option_map seen_enrolled result ≡ enrolled_as (state_of parts.now) registration.now }
    ensures lent { IfSome result (λ e. IsLentBy (state_of parts.now) e) }
{
    match founding_of(parts) {
        Some(founding) => enrolled_from(parts, &founding.base, registration),
        None => None,
    }
}

// The same in a store of that address.
fn enrolled_from<'a>(
    parts: &'a Parts,
    base: &'a Iri,
    registration: &'a HeldRegistration,
) -> Option<LentEnrolled<'a>>
    ensures { (founding : SpecFounding) → founding.base ≡ base.now → option_map seen_enrolled result
        ≡ enrolled_from (state_of parts.now) registration.now founding }
{
    let Some(edition) = edition_of(parts, registration) else {
        return None;
    };
    Some(LentEnrolled {
        base,
        registration,
        edition,
    })
}

/// Whether each node of the course is satisfied, in the order of the text.
pub fn verdicts_of(
    alloc: Global,
    parts: &Parts,
    enrolled: &LentEnrolled<'_>,
) -> Result<Vec<bool>, Memory>
    requires { IsLentBy (state_of parts.now) enrolled.now }
    ensures { IfOk result (λ verdicts. verdicts.items
        ≡ verdicts_of (state_of parts.now) (seen_enrolled enrolled.now)) }
{
    parts.verdicts(alloc, enrolled.registration, &enrolled.enrolment())
}
