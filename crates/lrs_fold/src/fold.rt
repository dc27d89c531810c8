ghost use Rattle.std.specs.Prelude.{◌≡◌, OnOk};
ghost use Rattle.lrs_learning.specs.LrsPartsParts.{state_of, AddsNoSlots, IsReadyFor, MakesSlotsFor};
ghost use Rattle.lrs_learning.specs.LrsPartsParts.{SeenParts as SpecParts};
ghost use Rattle.std.specs.Vec.Iter.{into_iter_items};
ghost use Rattle.xapi_index.specs.Ahead.{AreTextsOf};
ghost use Rattle.lrs_learning.specs.LrsStateState.{apply, nothing};

use lrs_json::Memory;
use lrs_learning::{Effect, Parts, SpentEffect};
use std::alloc::Global;
use std::vec::IntoIter;
use xapi_statement::ReceivedText;

/// What the entries so far give.
#[derive(Drop)]
pub struct Fold {
    pub parts: Parts,
}

impl Fold {
    /// What no entry gives.
    pub fn new(alloc: Global) -> Fold
        ensures { state_of result.parts ≡ nothing }
    {
        Fold {
            parts: Parts::new(alloc),
        }
    }

    /// Makes room for an effect. A store whose entries can't be counted any more has none. The texts of its first
    /// statements may have been written before: they are taken over.
    pub fn ready(
        &mut self,
        texts: &mut IntoIter<ReceivedText>,
        effect: &Effect,
    ) -> Result<(), Memory>
        requires { AreTextsOf (into_iter_items texts.old) effect.now.statements }
        ensures same { state_of self.new.parts ≡ state_of self.old.parts }
        ensures ready { OnOk result (IsReadyFor self.new.parts effect.now) }
        ensures made { MakesSlotsFor self.old.parts self.new.parts effect.now }
    {
        self.parts.ready(texts, effect)
    }

    /// Takes back the slots that were made for an effect which doesn't come: then there are none but those before.
    pub fn release(&mut self, effect: &Effect)
        ensures same { state_of self.new.parts ≡ state_of self.old.parts }
        ensures undone { (before : SpecParts) → MakesSlotsFor before self.old.parts effect.now
            → AddsNoSlots before self.new.parts }
    {
        self.parts.release(effect);
    }

    /// Takes an effect in for which there is room. It takes no memory. What is left of it is handed back: dropping trees
    /// takes long.
    pub fn install(&mut self, effect: Effect) -> SpentEffect
        requires { IsReadyFor self.old.parts effect }
        ensures { state_of self.new.parts ≡ apply (state_of self.old.parts) effect }
    {
        self.parts.install(effect)
    }

    /// Drops it. Crates above call this in place of `drop`, so that what drops it is proved here alone.
    pub fn discard(self) {
        drop(self);
    }
}
