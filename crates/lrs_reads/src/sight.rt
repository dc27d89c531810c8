// Which statements a caller sees.
ghost use Rattle.std.specs.Prelude.{◌≡◌};
ghost use Rattle.lrs_refusals.specs.LrsHistoryWhose.{sight_of};
ghost use Rattle.lrs_refusals.specs.LrsPartsParts.{state_of};

use lrs_command::Who;
use lrs_refusals::Parts;
use xapi_query::Sight;

/// What a caller sees of the statements.
pub(crate) fn sight_of(parts: &Parts, who: Who) -> Sight
    ensures { result ≡ sight_of (state_of parts.now) who }
{
    match who {
        Who::Unknown => Sight::Nothing,
        Who::Admin => Sight::All,
        Who::Provider(number) => Sight::Provider(number),
        Who::Session(number) => match parts.learning.launches.get(number) {
            Some(launch) => Sight::Registration(launch.registration),
            None => Sight::Nothing,
        },
    }
}
