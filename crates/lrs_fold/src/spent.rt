ghost use Rattle.std.specs.Prelude.{◌≡◌, take};

use crate::Accepted;
use lrs_json::{Items, Tree};
use lrs_learning::{Effect, SpentEffect};
use lrs_reads::PreparedTexts;
use lrs_record::{Caller, Entry};
use std::alloc::Global;
use xapi_statement::ReceivedText;

/// What an act leaves over, whether it made an entry or not. It is of no more use. Dropping it may take long, so a
/// worker drops it when others may have the turn.
#[derive(Drop)]
pub struct Spent {
    // Who asked.
    caller: Option<Caller>,
    // An entry that wasn't made.
    entry: Option<Entry>,
    // Trees that aren't kept.
    trees: Items<Tree>,
    effect: SpentEffect,
    // The texts of statements that weren't handed on: of none of them, or of those behind the first that was held.
    texts: Items<ReceivedText>,
    later: Items<ReceivedText>,
    // An entry's text, and what closed it.
    text: Items<u8>,
    closing: Items<u8>,
}

impl Spent {
    /// Nothing is left over.
    pub fn none(alloc: Global) -> Spent {
        Spent {
            caller: None,
            entry: None,
            trees: Items::new(alloc),
            effect: SpentEffect {
                statements: Items::new(alloc),
                voided: Items::new(alloc),
            },
            texts: Items::new(alloc),
            later: Items::new(alloc),
            text: Items::new(alloc),
            closing: Items::new(alloc),
        }
    }

    pub(crate) fn set_caller(&mut self, caller: Caller) {
        self.caller = Some(caller);
    }

    pub(crate) fn set_entry(&mut self, entry: Entry) {
        self.entry = Some(entry);
    }

    /// What was written of a write before the turn.
    pub(crate) fn set_written(&mut self, written: Option<PreparedTexts>) {
        if let Some(PreparedTexts { closing, texts }) = written {
            self.closing = closing;
            self.texts = texts;
        }
    }

    pub(crate) fn set_closing(&mut self, closing: Items<u8>) {
        self.closing = closing;
    }

    /// A tree that isn't kept. Where there is no memory for it, it is dropped at once.
    pub(crate) fn push_tree(&mut self, tree: Tree) {
        drop(self.trees.push(tree));
    }

    pub fn set_texts(&mut self, texts: Items<ReceivedText>) {
        self.texts = texts;
    }

    /// Takes the texts behind the first `count`. Where there is no memory for that, they are dropped at once.
    pub(crate) fn split_later(&mut self, texts: &mut Vec<ReceivedText>, count: usize)
        ensures { texts.new.items ≡ take count texts.old.items }
    {
        if texts.len() <= count {
            // None is behind them. The proof learns it from the clause of `truncate`.
            texts.truncate(count);
            return;
        }
        match texts.split_off(count) {
            Ok(later) => self.later = Items::from_vec(later),
            Err(_) => texts.truncate(count),
        }
    }

    /// An effect that isn't taken in.
    pub(crate) fn set_effect(&mut self, effect: Effect) {
        self.effect.statements = effect.statements;
    }

    /// The effect and the text of an entry that isn't made.
    pub(crate) fn set_unmade(&mut self, effect: Effect, text: Items<u8>) {
        self.set_effect(effect);
        self.text = text;
    }

    /// An entry that isn't made, with what would have been said of it.
    pub fn set_accepted(&mut self, accepted: Accepted) {
        let Accepted {
            entry: _,
            text,
            effect,
            said,
        } = accepted;
        drop(said);
        self.set_unmade(effect, text);
    }

    /// What is left of an entry that was made: of its effect, and its text.
    pub fn set_kept(&mut self, effect: SpentEffect, text: Items<u8>) {
        self.effect = effect;
        self.text = text;
    }

    /// Drops it. Crates above call this in place of `drop`, so that what drops it is proved here alone.
    pub fn discard(self) {
        drop(self);
    }
}
