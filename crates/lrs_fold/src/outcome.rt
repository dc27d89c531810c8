// What becomes of a command.
ghost use Rattle.std.specs.Prelude.{◌≡◌, max, IfOk, Ok, None};
ghost use Rattle.lrs_command.specs.Commands.{HasReadTrees};
ghost use Rattle.lrs_reads.specs.LrsRefusalsJudged.{IsJudged};
ghost use Rattle.lrs_reads.specs.LrsRefusalsKnown.{IsKnown};
ghost use Rattle.lrs_reads.specs.LrsRefusalsSubmissions.{IsWrittenIf};
ghost use Rattle.lrs_fold.specs.Texts.{texts_for};
ghost use Rattle.lrs_reads.specs.LrsHistoryAnswers.{write_said};
ghost use Rattle.lrs_fold.specs.Outcomes.{IsOutcome, made_of};
ghost use Rattle.lrs_reads.specs.LrsHistoryHistory.{next_entry, refused, refused_or, outcome, write_outcome};
ghost use Rattle.lrs_reads.specs.LrsHistoryRefusals.{barred, refusal};
ghost use Rattle.lrs_reads.specs.LrsHistoryWhose.{who_is};
ghost use Rattle.lrs_learning.specs.LrsPartsParts.{state_of};
ghost use Rattle.lrs_record.specs.Entries.{HoldsWrite, IsLawful, IsLawfulCaller, IsLawfulWrite, closing_text, written_entry};
ghost use Rattle.lrs_time.specs.Moments.{clamped};

use crate::saying::write_said;
use crate::{Fold, Spent};
use lrs_command::{Area, Command, Who};
use lrs_json::{Items, Memory};
use lrs_learning::Effect;
use lrs_names::Draw;
use lrs_reads::{
    Form, Known, PreparedTexts, Submission, barred, read_answered, refusal, refused_with, who_is,
};
use lrs_record::{Caller, Entry, Moment, Write, write_entry, write_headed};
use lrs_replies::{Answered, Refusal};
use std::alloc::Global;
use std::snapshot::Snapshot;
use xapi_statement::ReceivedText;

/// What becomes of a command.
#[derive(Drop)]
pub enum Outcome {
    /// This is said at once, and nothing is kept.
    Said(Answered),
    /// It is to have an entry. The texts of its first statements come with it, as far as they were written before.
    Accepted(Accepted, Items<ReceivedText>),
}

/// An entry that is to be kept if there is room for it.
#[derive(Drop)]
pub struct Accepted {
    /// The entry, as clauses see it.
    pub entry: Snapshot<Entry>,
    /// Its text.
    pub text: Items<u8>,
    pub effect: Effect,
    /// What is said to its caller once it is kept.
    pub said: Answered,
}

// What most entries have room in, so that few texts grow while they are written.
const ENTRY_ROOM: usize = 1_024;

// What most headings have room in.
const HEADING_ROOM: usize = 256;

impl Fold {
    /// What becomes of a command. All that it takes to keep its entry is made here, or was when it was submitted, but
    /// for the room in the parts. What is of no more use is put into `spent`.
    pub fn outcome(
        &self,
        alloc: Global,
        caller: Caller,
        command: Submission,
        clock: u64,
        draw: &Draw,
        spent: &mut Spent,
    ) -> Result<Outcome, Memory>
        requires caller { IsLawfulCaller caller }
        requires command { HasReadTrees command }
        ensures { IfOk result
            (IsOutcome (state_of self.now.parts) (outcome (state_of self.now.parts) caller command clock draw.now)) }
    {
        match command.into_form() {
            Form::Unjudged(command) => self.outcome_of_command(
                alloc, caller, command, clock, draw, spent,
            ),
            Form::Judged { write, written } => {
                let entry = self.next_entry(caller, write, clock, draw);
                self.write_outcome(alloc, Some(written), entry, spent)
            }
            Form::Refused { area, refusal } => {
                let said = self.refused(&caller, area, refusal);
                spent.set_caller(caller);
                Ok(Outcome::Said(said))
            }
        }
    }

    // Of a command whose form wasn't judged.
    fn outcome_of_command(
        &self,
        alloc: Global,
        caller: Caller,
        command: Command,
        clock: u64,
        draw: &Draw,
        spent: &mut Spent,
    ) -> Result<Outcome, Memory>
        requires caller { IsLawfulCaller caller }
        requires command { HasReadTrees command }
        ensures { IfOk result
            (IsOutcome (state_of self.now.parts) (outcome (state_of self.now.parts) caller command clock draw.now)) }
    {
        match command {
            Command::Write(write) => {
                let entry = self.next_entry(caller, write, clock, draw);
                self.write_outcome(alloc, None, entry, spent)
            }
            Command::Read(read) => {
                let said = read_answered(alloc, &self.parts, &caller, &read);
                spent.set_caller(caller);
                drop(read);
                Ok(Outcome::Said(said?))
            }
            Command::Refused { area, status, rule } => {
                let said = self.refused(&caller, area, refused_with(status, rule));
                spent.set_caller(caller);
                Ok(Outcome::Said(said))
            }
        }
    }

    // The entry that a write would have.
    fn next_entry(&self, caller: Caller, write: Write, clock: u64, draw: &Draw) -> Entry
        ensures { result ≡ next_entry (state_of self.now.parts) caller write clock draw.now }
    {
        Entry {
            caller,
            write,
            moment: next_moment(clock, self.last_moment()),
            draw: *draw,
        }
    }

    /// The last entry's moment.
    pub(crate) fn last_moment(&self) -> Moment
        ensures { result ≡ (state_of self.now.parts).last }
    {
        self.parts.last
    }

    // What is said to a caller whose command's form is refused.
    fn refused(&self, caller: &Caller, area: Area, refusal: Refusal) -> Answered
        ensures { result
            ≡ refused_or (barred area (who_is (state_of self.now.parts) caller.now)) (refused refusal) }
    {
        match barred(area, who_is(&self.parts, caller)) {
            Some(first) => {
                drop(refusal);
                Answered::Refused(first)
            }
            None => Answered::Refused(refusal),
        }
    }

    #[tactic(auto, using(crate::proofs::Outcomes::refused_now))]
    fn write_outcome(
        &self,
        alloc: Global,
        written: Option<PreparedTexts>,
        entry: Entry,
        spent: &mut Spent,
    ) -> Result<Outcome, Memory>
        requires caller { IsLawfulCaller entry.caller }
        requires write { IsLawfulWrite entry.write }
        requires written { IsWrittenIf entry.write written }
        ensures { IfOk result (IsOutcome (state_of self.now.parts) (write_outcome (state_of self.now.parts) entry)) }
    {
        let who = who_is(&self.parts, &entry.caller);
        let mut known = Known::Nothing;
        match refusal(
            alloc,
            &self.parts,
            who,
            written.as_ref(),
            &entry,
            &mut known,
        ) {
            Ok(None) => self.accepted(alloc, who, known, written, entry, spent),
            Ok(Some(refusal)) => {
                drop(known);
                spent.set_written(written);
                spent.set_entry(entry);
                Ok(Outcome::Said(Answered::Refused(refusal)))
            }
            Err(refused) => {
                drop(known);
                spent.set_written(written);
                spent.set_entry(entry);
                Err(refused)
            }
        }
    }

    // Of an entry of that caller that isn't refused.
    fn accepted(
        &self,
        alloc: Global,
        who: Who,
        known: Known,
        written: Option<PreparedTexts>,
        entry: Entry,
        spent: &mut Spent,
    ) -> Result<Outcome, Memory>
        requires caller { IsLawfulCaller entry.caller }
        requires write { IsLawfulWrite entry.write }
        requires written { IsWrittenIf entry.write written }
        requires who { who ≡ who_is (state_of self.now.parts) entry.caller }
        requires known { IsKnown (state_of self.now.parts) entry.draw entry.write known }
        requires judged { IsJudged entry.write }
        requires unrefused { refusal (state_of self.now.parts) entry ≡ None }
        ensures { IfOk result (IsOutcome (state_of self.now.parts) (write_outcome (state_of self.now.parts) entry)) }
    {
        match text_of(alloc, &written, &entry) {
            Ok(text) => self.outcome_with(alloc, who, known, written, text, entry, spent),
            Err(refused) => {
                drop(known);
                spent.set_written(written);
                spent.set_entry(entry);
                Err(refused)
            }
        }
    }

    // Of an entry with its text.
    fn outcome_with(
        &self,
        alloc: Global,
        who: Who,
        known: Known,
        written: Option<PreparedTexts>,
        text: Vec<u8>,
        entry: Entry,
        spent: &mut Spent,
    ) -> Result<Outcome, Memory>
        requires written { IsWrittenIf entry.write written }
        requires who { who ≡ who_is (state_of self.now.parts) entry.caller }
        requires known { IsKnown (state_of self.now.parts) entry.draw entry.write known }
        requires judged { IsJudged entry.write }
        requires unrefused { refusal (state_of self.now.parts) entry ≡ None }
        requires text { text.items ≡ written_entry entry }
        requires lawful { IsLawful entry }
        ensures { IfOk result (IsOutcome (state_of self.now.parts) (write_outcome (state_of self.now.parts) entry)) }
    {
        let made = Snapshot::of(&entry);
        let count = known.leading_new(&entry.write);
        match self.prepare_known(alloc, who, known, entry, spent) {
            Ok(effect) => said_with(alloc, made, written, count, text, effect, spent),
            Err(refused) => {
                spent.set_written(written);
                Err(refused)
            }
        }
    }
}

// Of an entry with its text and its effect. The first `count` texts of what was written before are those of its
// statements.
fn said_with(
    alloc: Global,
    entry: Snapshot<Entry>,
    written: Option<PreparedTexts>,
    count: usize,
    text: Vec<u8>,
    effect: Effect,
    spent: &mut Spent,
) -> Result<Outcome, Memory>
    ensures { IfOk result (λ outcome. outcome ≡ made_of
        (record { entry = entry; text = text.items; effect = effect; said = write_said effect })
        (texts_for written count effect.statements)) }
{
    match write_said(alloc, &effect) {
        Ok(said) => {
            let texts = texts_for(alloc, written, count, &effect, spent);
            Ok(outcome_of(
                Accepted {
                    entry,
                    text: Items::from_vec(text),
                    effect,
                    said,
                },
                texts,
                spent,
            ))
        }
        Err(refused) => {
            spent.set_effect(effect);
            spent.set_written(written);
            Err(refused)
        }
    }
}

// The first `count` of the texts that were written before, if the entry brings statements. The others and what closed
// the entry's text are put aside.
fn texts_for(
    alloc: Global,
    written: Option<PreparedTexts>,
    count: usize,
    effect: &Effect,
    spent: &mut Spent,
) -> Items<ReceivedText>
    ensures { result ≡ texts_for written count effect.now.statements }
{
    let Some(PreparedTexts { closing, texts }) = written else {
        return Items::new(alloc);
    };
    spent.set_closing(closing);
    if effect.statements.is_empty() {
        spent.set_texts(texts);
        return Items::new(alloc);
    }
    let mut texts = texts.into_vec();
    spent.split_later(&mut texts, count);
    Items::from_vec(texts)
}

// What changes nothing is answered at once, all else is to be kept.
fn outcome_of(accepted: Accepted, texts: Items<ReceivedText>, spent: &mut Spent) -> Outcome
    ensures { result ≡ made_of accepted texts }
{
    if !accepted.effect.changes_nothing() {
        return Outcome::Accepted(accepted, texts);
    }
    // There are none, since no statements come.
    drop(texts);
    let Accepted {
        entry: _,
        text,
        effect,
        said,
    } = accepted;
    spent.set_unmade(effect, text);
    Outcome::Said(said)
}

// An entry's text. What closes it may have been written before.
fn text_of(alloc: Global, written: &Option<PreparedTexts>, entry: &Entry) -> Result<Vec<u8>, Memory>
    requires caller { IsLawfulCaller entry.now.caller }
    requires write { IsLawfulWrite entry.now.write }
    requires written { IsWrittenIf entry.now.write written.now }
    ensures text { IfOk result (λ text. text.items ≡ written_entry entry.now) }
    ensures lawful { IfOk result (λ _. IsLawful entry.now) }
{
    match written {
        Some(written) => closed_text(alloc, written.closing.as_slice(), entry),
        None => entry_text(alloc, entry),
    }
}

// The text of an entry whose closing was written before.
fn closed_text(alloc: Global, closing: &[u8], entry: &Entry) -> Result<Vec<u8>, Memory>
    requires caller { IsLawfulCaller entry.now.caller }
    requires write { IsLawfulWrite entry.now.write }
    requires closing { closing.now ≡ closing_text entry.now.write }
    requires holds { HoldsWrite entry.now.write }
    ensures text { IfOk result (λ text. text.items ≡ written_entry entry.now) }
    ensures lawful { IfOk result (λ _. IsLawful entry.now) }
{
    let mut text = Vec::with_capacity(alloc, closing.len().saturating_add(HEADING_ROOM))?;
    write_headed(entry, closing, &mut text)?;
    Ok(text)
}

/// An entry's text.
pub fn entry_text(alloc: Global, entry: &Entry) -> Result<Vec<u8>, Memory>
    requires caller { IsLawfulCaller entry.now.caller }
    requires write { IsLawfulWrite entry.now.write }
    ensures text { IfOk result (λ text. text.items ≡ written_entry entry.now) }
    ensures lawful { IfOk result (λ _. IsLawful entry.now) }
{
    let mut text = Vec::with_capacity(alloc, ENTRY_ROOM)?;
    write_entry(entry, &mut text)?;
    Ok(text)
}

// The later one of the clock's reading, which may be out of range, and the last entry's moment.
fn next_moment(clock: u64, last: Moment) -> Moment
    ensures { result ≡ max (clamped clock) last }
{
    Moment::clamp(clock.max(last.milliseconds()))
}
