// What is held of registrations and of their editions.
ghost use Rattle.std.specs.Prelude.{◌≡◌, slice_get};
ghost use Rattle.std.specs.Option.{option_copied};
ghost use Rattle.lrs_parts.specs.Parts.{state_of};
ghost use Rattle.lrs_history.specs.LrsStateRegistrations.{registration_under};

use lrs_names::Id;
use lrs_parts::{Edition, Founding, HeldRegistration, Parts};

/// What the store was founded with, if it was.
pub(crate) fn founding_of(parts: &Parts) -> Option<&Founding>
    ensures { option_copied result ≡ (state_of parts.now).founding }
{
    parts.founding.as_ref()
}

/// The registration of that id.
pub(crate) fn registration_under<'a>(parts: &'a Parts, id: &Id) -> Option<&'a HeldRegistration>
    ensures { option_copied result ≡ registration_under id.now (state_of parts.now).registrations }
{
    parts.learning.registrations.find(id)
}

/// The edition of a registration.
pub(crate) fn edition_of<'a>(
    parts: &'a Parts,
    registration: &HeldRegistration,
) -> Option<&'a Edition>
    ensures { option_copied result ≡ slice_get (state_of parts.now).editions registration.now.edition }
{
    parts.learning.editions.get(registration.edition)
}
