// What a launch tells a unit in its address.
ghost use Rattle.std.specs.Prelude.{◌≡◌, ◌++◌, IfOk, OnOk, codes, string_bytes};
ghost use Rattle.lrs_agent_texts.specs.Texts.{agent_json};
ghost use Rattle.lrs_json.specs.Written.{written};
ghost use Rattle.cmi5_launch.specs.Addresses.{escaped, launch_pairs, pair_text, pairs_behind, pairs_text};

use lrs_agent_texts::agent_tree;
use lrs_agents::Agent;
use lrs_json::{Memory, Text, write};
use lrs_names::{Id, Iri};
use percent_encoding::{AsciiSet, NON_ALPHANUMERIC, ascii_set, percent_encode};
use std::alloc::Global;

// What isn't a letter, a digit, or one of `-._~`.
const ESCAPED: AsciiSet = ascii_set!(
    NON_ALPHANUMERIC
        .remove(b'-')
        .remove(b'.')
        .remove(b'_')
        .remove(b'~')
);

/// The five pairs of a launch, with `&` between them (cmi5 Quartz, sections 8.1.1 to 8.1.5).
pub fn launch_pairs(
    alloc: Global,
    base: &Text,
    key: &Text,
    actor: &Agent,
    registration: &Id,
    activity: &Iri,
) -> Result<String, Memory>
    ensures { IfOk result (λ pairs. string_bytes pairs
        ≡ pairs_text (launch_pairs base.now key.now actor.now registration.now activity.now)) }
{
    let mut pairs = String::new(alloc);
    put_addresses(alloc, base, key, &mut pairs)?;
    put_actor(alloc, actor, &mut pairs)?;
    put_pair("&registration=", &registration.text(), &mut pairs)?;
    put_pair("&activityId=", activity.text().as_bytes(), &mut pairs)?;
    Ok(pairs)
}

// Where the store is, and where the session's token is fetched.
fn put_addresses(alloc: Global, base: &Text, key: &Text, pairs: &mut String) -> Result<(), Memory>
    ensures { OnOk result (string_bytes pairs.new ≡ string_bytes pairs.old
        ++ (codes "endpoint=" ++ escaped (base.now ++ codes "xapi/"))
        ++ (codes "&fetch=" ++ escaped (base.now ++ codes "fetch/" ++ key.now))) }
{
    let base = base.as_str();
    let endpoint = format!(in alloc; "{base}xapi/")?;
    put_pair("endpoint=", endpoint.as_bytes(), pairs)?;
    let key = key.as_str();
    let fetch = format!(in alloc; "{base}fetch/{key}")?;
    put_pair("&fetch=", fetch.as_bytes(), pairs)
}

// Who the learner is.
fn put_actor(alloc: Global, actor: &Agent, pairs: &mut String) -> Result<(), Memory>
    ensures { OnOk result (string_bytes pairs.new ≡ string_bytes pairs.old
        ++ (codes "&actor=" ++ escaped (written (agent_json actor.now)))) }
{
    let agent = agent_tree(alloc, actor)?;
    let mut text = Vec::new(alloc);
    write(&agent, &mut text)?;
    put_pair("&actor=", text.as_slice(), pairs)
}

// The name with what stands around it, and the value, of which all is escaped but letters, digits and `-._~`.
fn put_pair(name: &str, value: &[u8], pairs: &mut String) -> Result<(), Memory>
    ensures { OnOk result (string_bytes pairs.new ≡ string_bytes pairs.old ++ (name.now ++ escaped value.now)) }
{
    pairs.push_str(name)?;
    percent_encode(value, ESCAPED).append_to(pairs)?;
    Ok(())
}
