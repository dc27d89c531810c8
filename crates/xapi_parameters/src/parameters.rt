// What the rules ask of pairs, whatever the values are.
ghost use Rattle.std.specs.Prelude.{◌≡◌, map};
ghost use Rattle.std.specs.Option.{option_copied};
ghost use Rattle.xapi_parameters.specs.Parameters.{are_among, are_distinct, given, has};

use crate::Pair;
use lrs_json::Text;
use lrs_names::is_one_of;

/// The value that is given under that name, the first if there are two.
pub fn given<'a>(pairs: &'a [Pair], name: &str) -> Option<&'a Text>
    ensures { option_copied result ≡ given name.now pairs.now }
{
    for pair in pairs {
        if pair.name.as_str() == name {
            return Some(&pair.value);
        }
    }
    None
}

pub fn has(pairs: &[Pair], name: &str) -> bool
    ensures { result ≡ has name.now pairs.now }
{
    given(pairs, name).is_some()
}

/// Whether each pair has one of these names.
pub fn are_among(pairs: &[Pair], names: &[&str]) -> bool
    ensures { result ≡ are_among (map (λ name. name.now) names.now) pairs.now }
{
    for pair in pairs {
        if !is_one_of(names, pair.name.as_str()) {
            return false;
        }
    }
    true
}

/// Whether no name stands twice. If there are few names, a second one is found soon.
pub fn are_distinct(pairs: &[Pair]) -> bool
    ensures { result ≡ are_distinct pairs.now }
{
    let mut rest = pairs;
    while let [pair, more @ ..] = rest {
        if has(more, pair.name.as_str()) {
            return false;
        }
        rest = more;
    }
    true
}
