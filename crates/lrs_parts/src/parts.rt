// All parts together.
ghost use Rattle.std.specs.Prelude.{◌≡◌, ◌<◌, ◌^◌, OnOk};
ghost use Rattle.std.specs.Vec.Iter.{into_iter_items};
ghost use Rattle.cmi5_running_verdicts.specs.XapiIndexAhead.{AreTextsOf};
ghost use Rattle.lrs_state.specs.Founding.{founding_after};
ghost use Rattle.lrs_parts.specs.Parts.{state_of, used_with, AddsNoSlots, HoldsNothingMore, IsReadyFor};
ghost use Rattle.lrs_parts.specs.Parts.{MakesSlotsFor, SeenParts};
ghost use Rattle.lrs_state.specs.State.{apply, nothing};

use crate::following::{enrol_new, take_in_each};
use crate::readying::ready_each;
use crate::{Progress, SpentEffect};
use cmi5_running_verdicts::Index;
use lrs_ids::UsedIds;
use lrs_json::Memory;
use lrs_names::Id;
use lrs_state::{Effect, Founding, Learning, Providers};
use lrs_time::Moment;
use std::alloc::Global;
use std::marker::Model;
use std::vec::IntoIter;
use xapi_docs::Docs;
use xapi_statement::ReceivedText;

/// All that a store holds. What is kept of progress follows the other parts.
#[derive(Drop)]
pub struct Parts {
    pub founding: Option<Founding>,
    pub providers: Providers,
    pub statements: Index,
    pub documents: Docs,
    pub learning: Learning,
    /// How far sessions and registrations have come.
    pub progress: Progress,
    /// How many entries there are.
    pub length: u64,
    /// The last entry's moment.
    pub last: Moment,
}

impl Model for Parts {
    ghost use Rattle.std.specs.Coded.{codes};
    ghost use Rattle.lrs_json.specs.contracts.tree.Tree as tree;
    ghost use Rattle.lrs_parts.specs.Parts.{SeenParts};
    ghost use Rattle.lrs_parts.specs.Progress.{IsUpToDate};

    ghost Value = { SeenParts };

    ghost coded = { Prim.hlevel (codes, tree.the_row.coded) };

    ghost view = { λ p. record {
      founding = p.founding;
      providers = p.providers;
      statements = p.statements;
      documents = p.documents;
      learning = p.learning;
      progress = p.progress;
      length = p.length;
      last = p.last;
    } };

    ghost invariant = { λ p. IsUpToDate p.progress p.founding p.learning.editions.held p.learning.registrations.held
        p.statements.held };
}

impl Parts {
    /// The parts of a store without entries.
    pub fn new(alloc: Global) -> Parts
        ensures { state_of result ≡ nothing }
    {
        let providers = Providers::new(alloc);
        let statements = Index::new(alloc);
        let documents = Docs::new(alloc);
        let learning = Learning::new(alloc);
        let progress = Progress::new(alloc);
        Parts {
            founding: None,
            providers,
            statements,
            documents,
            learning,
            progress,
            length: 0,
            last: Moment::clamp(0),
        }
    }

    /// Makes room for an effect in each part. There is none if the entries can't be counted any more, and none for one
    /// that no command has: that replaces an edition or a registration, or brings a registration without its edition.
    /// The texts of its first statements may have been written before: they are taken over.
    pub fn ready(
        &mut self,
        texts: &mut IntoIter<ReceivedText>,
        effect: &Effect,
    ) -> Result<(), Memory>
        requires { AreTextsOf (into_iter_items texts.old) effect.now.statements }
        ensures same { state_of self.new ≡ state_of self.old }
        ensures ready { OnOk result (IsReadyFor self.new effect.now) }
        ensures made { MakesSlotsFor self.old self.new effect.now }
    {
        ready_each(
            &mut self.progress,
            &self.founding,
            &mut self.providers,
            &mut self.statements,
            &mut self.documents,
            &mut self.learning,
            self.length,
            texts,
            effect,
        )
    }

    /// Takes back the slots that were made for an effect which doesn't come: then there are none but those before.
    pub fn release(&mut self, effect: &Effect)
        ensures same { state_of self.new ≡ state_of self.old }
        ensures undone { (before : SeenParts) → MakesSlotsFor before self.old effect.now
            → AddsNoSlots before self.new }
    {
        self.providers.release(&effect.providers);
        self.statements.release();
        self.documents.release_change(&effect.documents);
        self.learning.release(effect);
        self.progress.release(effect.statements.as_slice());
    }

    /// Takes an effect in for which there is room. It takes no memory. What is left of it is handed back: dropping trees
    /// takes long.
    pub fn install(&mut self, effect: Effect) -> SpentEffect
        requires { IsReadyFor self.old effect }
        ensures state { state_of self.new ≡ apply (state_of self.old) effect }
        ensures nothing { HoldsNothingMore self.new }
    {
        let Effect {
            founding,
            providers,
            statements,
            documents,
            editions,
            courses,
            registrations,
            launches,
            sessions,
            made_sessions,
            keys,
            tokens,
            moment,
            acceptance: _,
        } = effect;
        found(&mut self.founding, founding);
        self.learning.editions.install(editions);
        enrol_new(&mut self.progress.running, &registrations.new);
        self.learning.registrations.install(registrations);
        let voided = take_in_each(
            &mut self.progress,
            &self.founding,
            &self.learning,
            &mut self.statements,
            statements.as_slice(),
        );
        self.providers.install(providers);
        self.documents.install_change(documents);
        self.learning.launches.install(launches);
        self.learning.sessions.install(moment, sessions);
        self.learning.made_sessions.install(made_sessions);
        self.learning.keys.install(keys);
        self.learning.tokens.install(tokens);
        self.learning.courses.install(courses);
        self.length += 1;
        self.last = moment;
        SpentEffect { statements, voided }
    }
}

// The ids of the statements and of the registrations are used, and those of sessions.
impl UsedIds for Parts {
    ghost use Rattle.lrs_parts.specs.Parts.{state_of};
    ghost use Rattle.lrs_state.specs.State.{used_in};

    ghost used = { λ parts. used_in (state_of parts) };

    fn is_used(&self, id: &Id) -> bool {
        is_used_in(&self.statements, &self.learning, id)
    }

    fn count(&self) -> u128 {
        count_used(&self.statements, &self.learning)
    }
}

fn is_used_in(statements: &Index, learning: &Learning, id: &Id) -> bool
    ensures { result ≡ (used_with statements.now learning.now).is_used id.now }
{
    statements.is_used(id)
        || learning.registrations.is_used(id)
        || learning.launches.is_used(id)
        || learning.made_sessions.is_used(id)
}

fn count_used(statements: &Index, learning: &Learning) -> u128
    ensures count { result ≡ (used_with statements.now learning.now).count }
    ensures few { result < 2 ^ 100 }
{
    statements.len() as u128
        + learning.registrations.len() as u128
        + learning.launches.len() as u128
        + learning.made_sessions.len() as u128
}

// The first founding counts.
fn found(held: &mut Option<Founding>, new: Option<Founding>)
    ensures { held.new ≡ founding_after held.old new }
{
    if held.is_none() {
        *held = new;
    }
}
