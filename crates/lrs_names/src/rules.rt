// Rules by their numbers, and the least of those that a value breaks.
ghost use Rattle.std.specs.Prelude.{◌≡◌};
ghost use Rattle.lrs_names.specs.Rules.{unless, lesser, least};

/// The lesser of two broken rules, where `None` is no broken rule.
pub fn lesser(a: Option<u8>, b: Option<u8>) -> Option<u8>
    ensures { result ≡ lesser a b }
{
    match (a, b) {
        (Some(r), Some(s)) => Some(r.min(s)),
        (Some(r), None) => Some(r),
        (None, other) => other,
    }
}

/// The rule, if its demand isn't met.
pub fn unless(met: bool, rule: u8) -> Option<u8>
    ensures { result ≡ least (unless met rule) }
{
    if met { None } else { Some(rule) }
}
