ghost use Rattle.std.specs.Prelude.{◌≡◌, IfSome, IfNone, IfOk, None, MatchResult, Err, map, codes};
ghost use Rattle.lrs_json.specs.View.{view, elements_of};
ghost use Rattle.lrs_agents.specs.Agents.{is_group, group_faults, faults_of_members, faults_of_agents, agent_or_group_faults};
ghost use Rattle.lrs_names.specs.Members.{has_member_that, is_word, faults_of_member};
ghost use Rattle.lrs_agents.specs.Readings.{AreAgentsOf, member_items};
ghost use Rattle.lrs_names.specs.Rules.{least, IsLeast};

use crate::agents::name_of;
use crate::identifiers::{broken_identifiers, identifier_count};
use crate::{Agent, Ifi, NameRefused};
use lrs_json::{Items, Memory, Text, Tree};
use lrs_names::{has_member, has_only, is_string_if_there, is_word, lesser, unless};
use std::alloc::Global;

/// Several agents that act as one (xAPI 1.0.3, part two, section 2.4.2.2): with an identifier of its own, or known by
/// its members alone.
#[derive(Drop)]
pub struct Group {
    pub ifi: Option<Ifi>,
    pub name: Option<Text>,
    pub members: Items<Agent>,
}

impl Group {
    ghost use Rattle.lrs_agents.specs.Readings.{IsGroupOf};

    /// The least rule of S6 to S13 that the tree breaks where a group is asked for. Takes no memory.
    #[tactic(auto, using(lrs_names::proofs::RuleLemmas::joined), unfolding(crate::specs::Agents::group_faults))]
    pub fn broken(tree: &Tree) -> Option<u8>
        ensures least { result ≡ least (group_faults (view tree.now)) }
        ensures law { IsLeast (group_faults (view tree.now)) result }
    {
        let own = lesser(unless(is_group(tree), 12), broken_identifiers(tree));
        lesser(own, broken_members(tree))
    }

    /// The group that the tree is.
    pub fn read(alloc: Global, tree: &Tree) -> Result<Group, NameRefused>
        ensures broken { IfSome (least (group_faults (view tree.now)))
            (λ rule. result ≡ Err (NameRefused.Broken rule)) }
        ensures read { IfNone (least (group_faults (view tree.now)))
            (MatchResult result (λ group. IsGroupOf (view tree.now) group) (λ e. e ≡ NameRefused.Memory)) }
    {
        match Group::broken(tree) {
            Some(rule) => Err(NameRefused::Broken { rule }),
            None => Ok(Group::of_unbroken(alloc, tree)?),
        }
    }

    fn of_unbroken(alloc: Global, tree: &Tree) -> Result<Group, Memory>
        requires { least (group_faults (view tree.now)) ≡ None }
        ensures { IfOk result (λ group. IsGroupOf (view tree.now) group) }
    {
        let ifi = Ifi::of(alloc, tree)?;
        let name = name_of(alloc, tree)?;
        let members = members_in(alloc, tree)?;
        Ok(Group { ifi, name, members })
    }
}

/// The least rule that the tree breaks where an agent or a group is asked for, which its `objectType` decides; `rule`
/// if it is neither.
#[tactic(auto, unfolding(crate::specs::Agents::agent_or_group_faults))]
pub fn broken_agent_or_group(tree: &Tree, rule: u8) -> Option<u8>
    ensures { result ≡ least (agent_or_group_faults rule (view tree.now)) }
{
    match tree.get("objectType") {
        None => Agent::broken(tree),
        Some(kind) => {
            if is_word(kind, "Agent") {
                Agent::broken(tree)
            } else if is_word(kind, "Group") {
                Group::broken(tree)
            } else {
                Some(rule)
            }
        }
    }
}

fn is_group(tree: &Tree) -> bool
    ensures { result ≡ is_group (view tree.now) }
{
    let count = identifier_count(tree);
    has_only(
        tree,
        &[
            "objectType",
            "name",
            "member",
            "mbox",
            "mbox_sha1sum",
            "openid",
            "account",
        ],
    ) && is_group_kind(tree)
        && is_string_if_there(tree, "name")
        && count <= 1
        && (count == 1 || has_member(tree, "member"))
}

fn is_group_kind(tree: &Tree) -> bool
    ensures { result ≡ has_member_that (codes "objectType") (is_word (codes "Group")) (view tree.now) }
{
    match tree.get("objectType") {
        Some(kind) => is_word(kind, "Group"),
        None => false,
    }
}

fn broken_members(tree: &Tree) -> Option<u8>
    ensures { result ≡ least (faults_of_member (codes "member") faults_of_members (view tree.now)) }
{
    match tree.get("member") {
        Some(Tree::List(items)) => broken_agents(items.as_slice()),
        Some(_) => Some(13),
        None => None,
    }
}

#[tactic(auto, using(lrs_names::proofs::RuleLemmas::joined))]
fn broken_agents(items: &[Tree]) -> Option<u8>
    ensures { result ≡ least (faults_of_agents (elements_of (map view items.now))) }
{
    let mut found = None;
    for item in items {
        found = lesser(found, Agent::broken(item));
    }
    found
}

fn members_in(alloc: Global, tree: &Tree) -> Result<Items<Agent>, Memory>
    requires { least (faults_of_member (codes "member") faults_of_members (view tree.now)) ≡ None }
    ensures { IfOk result (λ agents. AreAgentsOf (member_items (view tree.now)) agents) }
{
    match tree.get("member") {
        Some(Tree::List(items)) => agents_of(alloc, items.as_slice()),
        _ => Ok(Items::new(alloc)),
    }
}

// One for each, in their order.
fn agents_of(alloc: Global, items: &[Tree]) -> Result<Items<Agent>, Memory>
    requires { least (faults_of_agents (elements_of (map view items.now))) ≡ None }
    ensures { IfOk result (λ agents. AreAgentsOf (elements_of (map view items.now)) agents) }
{
    let mut agents = Items::new(alloc);
    for item in items {
        agents.push(Agent::of_unbroken(alloc, item)?)?;
    }
    Ok(agents)
}
