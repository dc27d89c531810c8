// Under whose authority a caller's statements stand.
ghost use Rattle.std.specs.Prelude.{◌≡◌, IfOk};
ghost use Rattle.lrs_reads.specs.LrsHistoryWhose.{authority_of};
ghost use Rattle.lrs_learning.specs.LrsPartsParts.{state_of};

use lrs_command::Who;
use lrs_json::Memory;
use lrs_learning::Parts;
use xapi_statement::Authority;

/// The caller's authority, a copy of its own.
pub(crate) fn authority_of(parts: &Parts, who: Who) -> Result<Option<Authority>, Memory>
    ensures { IfOk result (λ authority. authority ≡ authority_of (state_of parts.now) who) }
{
    match who {
        Who::Unknown => Ok(None),
        Who::Admin => Ok(Some(Authority::Admin)),
        Who::Provider(number) => match parts.providers.get(number) {
            Some(provider) => Ok(Some(Authority::Provider {
                number,
                name: provider.name.clone()?,
            })),
            None => Ok(None),
        },
        Who::Session(number) => match parts.learning.launches.get(number) {
            Some(launch) => Ok(Some(Authority::Session(launch.session))),
            None => Ok(None),
        },
    }
}
