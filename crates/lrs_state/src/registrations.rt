// The registrations.
ghost use Rattle.std.specs.Prelude.{◌≡◌, IsTrue};
ghost use Rattle.lrs_state.specs.Learners.{has_account, is_learner};

use crate::Counted;
use lrs_agents::{Agent, Ifi};
use lrs_names::Id;
use lrs_register::{Change, Keyed};
use std::alloc::AllocError;
use std::marker::Model;

/// Who can be enrolled: an Agent that is known by an account. Contracts see it as the Agent.
#[derive(Drop)]
pub struct Learner {
    agent: Agent,
}

impl Model for Learner {
    ghost use Rattle.std.specs.Prelude.{◌≡◌, true};
    ghost use Rattle.lrs_agents.specs.declared.agents.Agent.{Agent};
    ghost use Rattle.lrs_state.specs.Learners.{is_learner};

    ghost Value = { Agent };

    ghost view = { λ learner. learner.agent };

    ghost invariant = { λ learner. is_learner learner.agent ≡ true };
}

impl Learner {
    ghost use Rattle.std.specs.Prelude.{◌≡◌, IsTrue};
    ghost use Rattle.lrs_state.specs.Learners.{is_learner};

    /// The learner that an Agent is.
    pub fn of(agent: Agent) -> Learner
        requires { IsTrue (is_learner agent) }
        ensures { result ≡ agent }
    {
        Learner { agent }
    }

    /// The Agent, lent.
    pub fn agent(&self) -> &Agent
        ensures lent { result.now ≡ self.now }
        ensures learner { IsTrue (is_learner self.now) }
    {
        &self.agent
    }
}

/// Whether an Agent can be enrolled: it has an account, whose home page is an IRI.
pub fn is_learner(agent: &Agent) -> bool
    ensures { result ≡ is_learner agent.now }
{
    has_account(&agent.ifi) && agent.ifi.is_identifier()
}

fn has_account(ifi: &Ifi) -> bool
    ensures { result ≡ has_account ifi.now }
{
    match ifi {
        Ifi::Account { .. } => true,
        Ifi::Mbox(_) | Ifi::MboxSha1(_) | Ifi::OpenId(_) => false,
    }
}

/// That a learner takes an edition of a course (cmi5 Quartz, section 8.1.4, `registration`).
#[derive(Drop)]
pub struct HeldRegistration {
    pub id: Id,
    /// The index of the edition. The registration stays in it.
    pub edition: u32,
    /// Who the learner is.
    pub actor: Learner,
}

/// What an entry changes among the registrations: one that it makes.
pub type RegistrationsChange = Change<HeldRegistration>;

impl Keyed<Id> for HeldRegistration {
    ghost use Rattle.lrs_state.specs.Registrations.{registration_key};

    ghost key = { registration_key };

    fn key(&self) -> &Id {
        &self.id
    }

    fn key_copy(&self) -> Result<Id, AllocError> {
        Ok(self.id)
    }
}

/// The registrations in the order in which they were made, found by id.
pub type Registrations = Counted<Id, HeldRegistration>;
