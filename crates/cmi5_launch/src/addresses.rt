ghost use Rattle.std.specs.Prelude.{◌≡◌, ◌++◌, IfOk, IsTrue};
ghost use Rattle.url.specs.Parts.{serialize};
ghost use Rattle.cmi5_launch.specs.Addresses.{IsAddress, before_fragment, fragment, joint, launch_text, printed, with_query};

use crate::pairs::launch_pairs;
use cmi5_course::Unit;
use lrs_agents::Agent;
use lrs_json::{Memory, Text};
use lrs_names::{Id, Iri};
use std::alloc::Global;
use url::{ParseError, Url};

/// The address at which a unit is launched (cmi5 Quartz, section 8.1): its own, as the URL Standard prints it, with
/// `endpoint`, `fetch`, `actor`, `registration` and `activityId` behind its query. `base` is the store's own address,
/// which ends with a slash, and `key` the one with which the session's token is fetched.
pub fn launch_address(
    alloc: Global,
    unit: &Unit,
    base: &Text,
    key: &Text,
    actor: &Agent,
    registration: &Id,
    activity: &Iri,
) -> Result<Text, Memory>
    requires { IsAddress unit.now.url }
    ensures { IfOk result (λ address. address
        ≡ launch_text unit.now.url base.now key.now actor.now registration.now activity.now) }
{
    let pairs = launch_pairs(alloc, base, key, actor, registration, activity)?;
    let url = read_url(alloc, &unit.url)?;
    with_query(alloc, pairs.as_str(), url.as_str())
}

#[tactic(auto, unfolding(crate::specs::Addresses::printed))]
fn read_url(alloc: Global, text: &Text) -> Result<Url, Memory>
    requires { IsAddress text.now }
    ensures { IfOk result (λ url. serialize url ≡ printed text.now) }
{
    match Url::parse(alloc, text.as_str()) {
        Ok(url) => Ok(url),
        Err(ParseError::OutOfMemory | ParseError::Overflow) => Err(Memory),
        Err(_) => unreachable!(),
    }
}

fn with_query(alloc: Global, pairs: &str, address: &str) -> Result<Text, Memory>
    ensures { IfOk result (λ text. text ≡ with_query pairs.now address.now) }
{
    let (before, fragment) = split_at_fragment(address);
    let joint = joint(before);
    let text = format!(in alloc; "{before}{joint}{pairs}{fragment}")?;
    Text::of(alloc, text.as_str())
}

// What stands before the fragment, and the fragment with its number sign.
fn split_at_fragment(address: &str) -> (&str, &str)
    ensures before { result.0.now ≡ before_fragment address.now }
    ensures fragment { result.1.now ≡ fragment address.now }
{
    match address.find('#') {
        Some(at) => address.split_at(at),
        None => (address, ""),
    }
}

// What stands between an address and more of its query.
fn joint(address: &str) -> &'static str
    ensures { result.now ≡ joint address.now }
{
    match address.split_once('?') {
        Some((_, query)) => { if query.is_empty() { "" } else { "&" } }
        None => "?",
    }
}
