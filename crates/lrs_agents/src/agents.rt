ghost use Rattle.std.specs.Prelude.{◌≡◌, IfSome, IfNone, IfOk, None, MatchResult, Err, codes};
ghost use Rattle.lrs_json.specs.View.{view};
ghost use Rattle.lrs_agents.specs.Agents.{is_agent, agent_faults};
ghost use Rattle.lrs_names.specs.Members.{if_member, is_word, text_under};
ghost use Rattle.lrs_names.specs.Rules.{least, IsLeast};

use crate::identifiers::{broken_identifiers, identifier_count};
use crate::{Ifi, NameRefused};
use lrs_json::{Memory, Text, Tree};
use lrs_names::{has_only, is_string_if_there, is_word, lesser, text_under, unless};
use std::alloc::Global;

/// A person or a thing that acts (xAPI 1.0.3, part two, section 2.4.2.1).
#[derive(Drop)]
pub struct Agent {
    pub ifi: Ifi,
    pub name: Option<Text>,
}

impl Agent {
    ghost use Rattle.lrs_agents.specs.Readings.{IsAgentOf};

    /// The least rule of S6 to S13 that the tree breaks where an agent is asked for. Takes no memory.
    #[tactic(auto, using(lrs_names::proofs::RuleLemmas::joined), unfolding(crate::specs::Agents::agent_faults))]
    pub fn broken(tree: &Tree) -> Option<u8>
        ensures least { result ≡ least (agent_faults (view tree.now)) }
        ensures law { IsLeast (agent_faults (view tree.now)) result }
    {
        lesser(unless(is_agent(tree), 11), broken_identifiers(tree))
    }

    /// The agent that the tree is.
    pub fn read(alloc: Global, tree: &Tree) -> Result<Agent, NameRefused>
        ensures broken { IfSome (least (agent_faults (view tree.now)))
            (λ rule. result ≡ Err (NameRefused.Broken rule)) }
        ensures read { IfNone (least (agent_faults (view tree.now)))
            (MatchResult result (λ agent. IsAgentOf (view tree.now) agent) (λ e. e ≡ NameRefused.Memory)) }
    {
        match Agent::broken(tree) {
            Some(rule) => Err(NameRefused::Broken { rule }),
            None => Ok(Agent::of_unbroken(alloc, tree)?),
        }
    }

    // A tree that breaks no rule has an identifier.
    pub(crate) fn of_unbroken(alloc: Global, tree: &Tree) -> Result<Agent, Memory>
        requires { least (agent_faults (view tree.now)) ≡ None }
        ensures { IfOk result (λ agent. IsAgentOf (view tree.now) agent) }
    {
        let name = name_of(alloc, tree)?;
        match Ifi::of(alloc, tree)? {
            Some(ifi) => Ok(Agent { ifi, name }),
            None => unreachable!(),
        }
    }
}

fn is_agent(tree: &Tree) -> bool
    ensures { result ≡ is_agent (view tree.now) }
{
    has_only(
        tree,
        &[
            "objectType",
            "name",
            "mbox",
            "mbox_sha1sum",
            "openid",
            "account",
        ],
    ) && is_agent_kind(tree)
        && is_string_if_there(tree, "name")
        && identifier_count(tree) == 1
}

fn is_agent_kind(tree: &Tree) -> bool
    ensures { result ≡ if_member (codes "objectType") (is_word (codes "Agent")) (view tree.now) }
{
    match tree.get("objectType") {
        Some(kind) => is_word(kind, "Agent"),
        None => true,
    }
}

/// The `name` of an agent or a group.
pub(crate) fn name_of(alloc: Global, tree: &Tree) -> Result<Option<Text>, Memory>
    ensures { IfOk result (λ name. name ≡ text_under (codes "name") (view tree.now)) }
{
    match text_under(tree, "name") {
        Some(name) => Ok(Some(Text::of(alloc, name.as_str())?)),
        None => Ok(None),
    }
}
