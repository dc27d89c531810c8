// Addresses of units, as far as a launch may add its own to them.
ghost use Rattle.std.specs.Prelude.{◌≡◌, IfOk};
ghost use Rattle.cmi5_course.specs.Urls.{is_reserved, keeps_free, is_unit_url};

use form_urlencoded::{decode, raw_pairs};
use lrs_json::Memory;
use std::alloc::Global;
use url::{ParseError, Url};

/// Whether the text is a URL of the web with no name in its query that a launch puts there (cmi5 Quartz, section 8.1).
#[tactic(auto, unfolding(crate::specs::Urls::is_unit_url))]
pub fn is_unit_url(alloc: Global, text: &str) -> Result<bool, Memory>
    ensures { IfOk result (λ fits. fits ≡ is_unit_url text.now) }
{
    match Url::parse(alloc, text) {
        Ok(url) => {
            if url.scheme() != "http" && url.scheme() != "https" {
                return Ok(false);
            }
            keeps_free(alloc, url.query().unwrap_or("").as_bytes())
        }
        Err(ParseError::OutOfMemory | ParseError::Overflow) => Err(Memory),
        Err(_) => Ok(false),
    }
}

#[tactic(auto, unfolding(crate::specs::Urls::keeps_free))]
fn keeps_free(alloc: Global, query: &[u8]) -> Result<bool, Memory>
    ensures { IfOk result (λ free. free ≡ keeps_free query.now) }
{
    for (name, _) in raw_pairs(query) {
        let name = decode(alloc, name)?;
        if is_reserved(&name) {
            return Ok(false);
        }
    }
    Ok(true)
}

fn is_reserved(name: &str) -> bool
    ensures { result ≡ is_reserved name.now }
{
    name == "endpoint"
        || name == "fetch"
        || name == "actor"
        || name == "registration"
        || name == "activityId"
}
