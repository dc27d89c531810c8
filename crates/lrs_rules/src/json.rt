ghost use Rattle.std.specs.Prelude.{◌≡◌};
ghost use Rattle.lrs_rules.specs.Rules.{json_rule};

use crate::Rule;
use lrs_json_reader::ReadRefused;

/// The rule on JSON that a refusal means. None means that memory ran out.
pub fn json_rule(refused: ReadRefused) -> Option<Rule>
    ensures { result ≡ json_rule refused }
{
    match refused {
        ReadRefused::TooDeep => Some(Rule::J(1)),
        ReadRefused::Bad => Some(Rule::J(2)),
        ReadRefused::Repeated { .. } => Some(Rule::J(3)),
        ReadRefused::NumberRange { .. } => Some(Rule::J(4)),
        ReadRefused::Memory => None,
    }
}
