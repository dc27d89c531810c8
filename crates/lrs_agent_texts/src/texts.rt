// The Agent of a learner as a tree.
ghost use Rattle.std.specs.Prelude.{◌≡◌, ◌∷◌, ◌++◌, [], IfOk, IsTrue, None, OnOk, map};
ghost use Rattle.lrs_json.specs.View.{member_view, view};
ghost use Rattle.lrs_agents.specs.Agents.{agent_faults};
ghost use Rattle.lrs_agents.specs.Identifiers.{account_json, is_identifier};
ghost use Rattle.lrs_agents.specs.Readings.{IsAgentOf};
ghost use Rattle.lrs_agent_texts.specs.Texts.{agent_json, identifier_member};
ghost use Rattle.lrs_names.specs.Rules.{least};

use crate::building::{push, push_given, push_words, whole};
use lrs_agents::{Agent, Ifi};
use lrs_json::{Items, Member, Memory, Text, Tree};
use std::alloc::Global;

/// The Agent as a value: its `objectType`, its name where it has one, its identifier. It is what a launch address, a
/// made statement and an enrolment in the journal tell of a learner.
pub fn agent_tree(alloc: Global, agent: &Agent) -> Result<Tree, Memory>
    ensures value { IfOk result (λ tree. view tree ≡ agent_json agent.now) }

    // Reading gives that agent again, and finds no broken rule where its identifier is one.
    ensures agent { IfOk result (λ tree. IsAgentOf (view tree) agent.now) }
    ensures unbroken { IsTrue (is_identifier agent.now.ifi) →
        IfOk result (λ tree. least (agent_faults (view tree)) ≡ None) }
{
    let mut built = Items::new(alloc);
    push_words("objectType", "Agent", &mut built)?;
    push_given("name", &agent.name, &mut built)?;
    push_identifier(alloc, &agent.ifi, &mut built)?;
    Ok(whole(built))
}

fn push_identifier(alloc: Global, ifi: &Ifi, built: &mut Items<Member>) -> Result<(), Memory>
    ensures { OnOk result (map member_view built.new
        ≡ map member_view built.old ++ identifier_member ifi.now ∷ []) }
{
    match ifi {
        Ifi::Mbox(text) => push_words("mbox", text.as_str(), built),
        Ifi::MboxSha1(text) => push_words("mbox_sha1sum", text.as_str(), built),
        Ifi::OpenId(text) => push_words("openid", text.as_str(), built),
        Ifi::Account { home, name } => push("account", account(alloc, home, name)?, built),
    }
}

fn account(alloc: Global, home: &Text, name: &Text) -> Result<Tree, Memory>
    ensures { IfOk result (λ tree. view tree ≡ account_json home.now name.now) }
{
    let mut built = Items::new(alloc);
    push_words("homePage", home.as_str(), &mut built)?;
    push_words("name", name.as_str(), &mut built)?;
    Ok(whole(built))
}
