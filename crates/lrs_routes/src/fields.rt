// What the fields of a request say.
ghost use Rattle.std.specs.Prelude.{◌≡◌, IfOk, Some};
ghost use Rattle.lrs_record.specs.Entries.{IsLawfulCaller};
ghost use Rattle.lrs_routes.specs.Fields.{caller_of, caller_of_token, is_version, presented, speaks};

use lrs_command::Area;
use lrs_json::{Memory, Text};
use lrs_record::Caller;
use std::alloc::Global;

/// Whether the version is 1.0 or one of 1.0.x (xAPI 1.0.3, part three, section 3.3).
pub fn speaks(version: &Option<Text>) -> bool
    ensures { result ≡ speaks version.now }
{
    match version {
        Some(version) => is_version(version.as_str()),
        None => false,
    }
}

fn is_version(version: &str) -> bool
    ensures { result ≡ is_version version.now }
{
    version == "1.0" || version.starts_with("1.0.")
}

/// Who asks, by the credential; nobody if the area lets anyone ask.
pub fn caller_of(alloc: Global, area: Area, credential: &Option<Text>) -> Result<Caller, Memory>
    ensures is { IfOk result (λ caller. caller ≡ caller_of area credential.now) }
    ensures lawful { IfOk result IsLawfulCaller }
{
    match (area, credential) {
        (Area::Free, _) | (_, None) => Ok(Caller::Nobody),
        (_, Some(credential)) => presented(alloc, credential.as_str()),
    }
}

fn presented(alloc: Global, credential: &str) -> Result<Caller, Memory>
    ensures is { IfOk result (λ caller. caller ≡ presented (Some credential.now)) }
    ensures lawful { IfOk result IsLawfulCaller }
{
    match credential.split_once(' ') {
        Some((scheme, token)) => {
            if scheme.eq_ignore_ascii_case("Basic") {
                caller_of_token(alloc, token)
            } else {
                Ok(Caller::Nobody)
            }
        }
        None => Ok(Caller::Nobody),
    }
}

fn caller_of_token(alloc: Global, token: &str) -> Result<Caller, Memory>
    ensures is { IfOk result (λ caller. caller ≡ caller_of_token token.now) }
    ensures lawful { IfOk result IsLawfulCaller }
{
    if token == "" || token == "*" {
        Ok(Caller::Nobody)
    } else {
        Ok(Caller::Token(Text::of(alloc, token)?))
    }
}
