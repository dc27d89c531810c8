// Whether an entry comes next, and what it changes then.
ghost use Rattle.std.specs.Prelude.{◌≡◌, ◌&&◌, is_none, nat_le, nat_lt, IfOk, Ok, true};
ghost use Rattle.lrs_reads.specs.LrsRefusalsJudged.{IsJudged};
ghost use Rattle.lrs_reads.specs.LrsRefusalsKnown.{IsKnown};
ghost use Rattle.lrs_fold.specs.Next.{may_be_next, Changes, Comes};
ghost use Rattle.lrs_reads.specs.LrsHistoryHistory.{founds, is_founding};
ghost use Rattle.lrs_reads.specs.LrsHistoryWhose.{who_is};
ghost use Rattle.lrs_learning.specs.LrsPartsParts.{state_of};
ghost use Rattle.lrs_record.specs.Entries.{IsLawfulWrite};

use crate::{Fold, Spent};
use lrs_command::Who;
use lrs_json::Memory;
use lrs_learning::{Effect, is_base, is_token};
use lrs_reads::{Known, refusal, who_is};
use lrs_record::{Caller, Entry, Write};
use std::alloc::Global;

impl Fold {
    /// What an entry changes, if it may come next, as the first one or after others, and there is room for it. None if
    /// it may not.
    #[tactic(auto, using(crate::proofs::Coming::comes, crate::proofs::Coming::stays))]
    pub fn next(&self, alloc: Global, first: bool, entry: Entry) -> Result<Option<Effect>, Memory>
        requires { IsLawfulWrite entry.write }
        ensures { IfOk result (λ next. Comes first (state_of self.now.parts) entry next) }
    {
        let who = who_is(&self.parts, &entry.caller);
        let mut known = Known::Nothing;
        match self.may_be_next(alloc, first, who, &entry, &mut known) {
            Ok(true) => self.prepare_next(alloc, first, who, known, entry),
            Ok(false) => {
                drop(known);
                drop(entry);
                Ok(None)
            }
            Err(refused) => {
                drop(known);
                drop(entry);
                Err(refused)
            }
        }
    }

    // What an entry of that caller changes that isn't refused, if it changes anything.
    fn prepare_next(
        &self,
        alloc: Global,
        first: bool,
        who: Who,
        known: Known,
        entry: Entry,
    ) -> Result<Option<Effect>, Memory>
        requires judged { IsJudged entry.write }
        requires who { who ≡ who_is (state_of self.now.parts) entry.caller }
        requires known { IsKnown (state_of self.now.parts) entry.draw entry.write known }
        ensures { IfOk result (λ next. Changes first (state_of self.now.parts) entry next) }
    {
        let mut spent = Spent::none(alloc);
        let prepared = self.prepare_known(alloc, who, known, entry, &mut spent);
        drop(spent);
        let effect = prepared?;
        if !first && effect.changes_nothing() {
            drop(effect);
            return Ok(None);
        }
        Ok(Some(effect))
    }

    // Whether an entry of that caller comes next, if it changes anything.
    fn may_be_next(
        &self,
        alloc: Global,
        first: bool,
        who: Who,
        entry: &Entry,
        known: &mut Known,
    ) -> Result<bool, Memory>
        requires lawful { IsLawfulWrite entry.now.write }
        requires who { who ≡ who_is (state_of self.now.parts) entry.now.caller }
        requires known { IsKnown (state_of self.now.parts) entry.now.draw entry.now.write known.old }
        ensures may { IfOk result (λ may. may ≡ may_be_next first (state_of self.now.parts) entry.now) }
        ensures judged { result ≡ Ok true → IsJudged entry.now.write }
        ensures known { IsKnown (state_of self.now.parts) entry.now.draw entry.now.write known.new }
    {
        if first {
            return is_founding(alloc, entry);
        }
        if refusal(alloc, &self.parts, who, None, entry, known)?.is_some() {
            return Ok(false);
        }
        Ok(self.last_moment().milliseconds() <= entry.moment.milliseconds())
    }
}

fn is_founding(alloc: Global, entry: &Entry) -> Result<bool, Memory>
    ensures founds { IfOk result (λ founds. founds ≡ is_founding entry.now) }
    ensures judged { result ≡ Ok true → IsJudged entry.now.write }
{
    match &entry.caller {
        Caller::Operator => {}
        Caller::Nobody | Caller::Token(_) => return Ok(false),
    }
    if entry.draw.name != 0 || entry.draw.secret != 0 {
        return Ok(false);
    }
    founds(alloc, &entry.write)
}

fn founds(alloc: Global, write: &Write) -> Result<bool, Memory>
    ensures founds { IfOk result (λ fits. fits ≡ founds write.now) }
    ensures judged { result ≡ Ok true → IsJudged write.now }
{
    match write {
        Write::Found { admin, base } => {
            if !is_token(admin) {
                return Ok(false);
            }
            is_base(alloc, base)
        }
        _ => Ok(false),
    }
}
