// What an entry changes.
ghost use Rattle.std.specs.Prelude.{◌≡◌, ◌∷◌, ◌++◌, [], drop, None, Some, IfOk, OnOk};
ghost use Rattle.std.specs.List.{AllByRecursion};
ghost use Rattle.std.specs.Option.{option_copied};
ghost use Rattle.std.specs.Vec.Iter.{into_iter_items};
ghost use Rattle.cmi5_course.specs.Courses.{course_of};
ghost use Rattle.cmi5_course.specs.Rules.{broken_rule};
ghost use Rattle.lrs_fold.specs.Written.{effect_by};
ghost use Rattle.lrs_reads.specs.LrsHistoryDeskEffects.{taking};
ghost use Rattle.lrs_reads.specs.LrsHistoryEffects.{document_by, dropping, effect, making, new_by, writing};
ghost use Rattle.lrs_reads.specs.LrsHistoryWhose.{who_is};
ghost use Rattle.lrs_json.specs.Fits.{Fits};
ghost use Rattle.lrs_json.specs.View.{view};
ghost use Rattle.lrs_learning.specs.LrsStateFounding.{IsBase};
ghost use Rattle.lrs_learning.specs.LrsPartsParts.{state_of};
ghost use Rattle.lrs_learning.specs.LrsStateAcceptanceAcceptanceTheVariants as acceptance;
ghost use Rattle.lrs_learning.specs.LrsStateState.{no_change};
ghost use Rattle.lrs_record.specs.declared.entry.Write.TheVariants as writes;
ghost use Rattle.lrs_reads.specs.LrsRefusalsJudged.{IsJudged, IsJudgedTree};
ghost use Rattle.lrs_reads.specs.LrsRefusalsKnown.{IsBatch, IsKnown, IsKnownOf, IsKnownUnder, TellHeld};
ghost use Rattle.lrs_reads.specs.LrsRefusalsKnown.{TellsNext};
ghost use Rattle.lrs_reads.specs.LrsRefusalsNaming.{with_these_ids};
ghost use Rattle.lrs_replies.specs.Texts.{token_text};
ghost use Rattle.xapi_statement.specs.Statements.{is_held};

use crate::authority::authority_of;
use crate::{Fold, Spent};
use lrs_agents::Ifi;
use lrs_command::Who;
use lrs_json::{Items, Memory, Text, Tree};
use lrs_learning::{
    Acceptance, Effect, Founding, HeldProvider, ProvidersChange, abandoning_one, enrolling,
    fetching, launching, sweeping, taking, waiving,
};
use lrs_names::{Draw, Id, Iri};
use lrs_reads::{Batch, Known, batch_of, who_is};
use lrs_record::{Entry, How, Moment, Write};
use lrs_replies::token_text;
use std::alloc::Global;
use std::vec::IntoIter;
use xapi_docs::{Document, DocumentsChange, posted};
use xapi_keys::StateKey;
use xapi_statement::{Statement, StoredStatement};

impl Fold {
    /// What an entry changes, whose write isn't refused. Its statements move into the effect.
    pub fn prepare(&self, alloc: Global, entry: Entry) -> Result<Effect, Memory>
        requires { IsJudged entry.write }
        ensures { IfOk result (λ made. made ≡ effect (state_of self.now.parts) entry) }
    {
        let who = who_is(&self.parts, &entry.caller);
        let mut spent = Spent::none(alloc);
        let effect = self.prepare_known(alloc, who, Known::Nothing, entry, &mut spent);
        drop(spent);
        effect
    }

    /// The same of an entry of that caller. What is known of its statements isn't looked up again. The caller and the
    /// trees that aren't kept are put into `spent`.
    pub(crate) fn prepare_known(
        &self,
        alloc: Global,
        who: Who,
        known: Known,
        entry: Entry,
        spent: &mut Spent,
    ) -> Result<Effect, Memory>
        requires judged { IsJudged entry.write }
        requires who { who ≡ who_is (state_of self.now.parts) entry.caller }
        requires known { IsKnown (state_of self.now.parts) entry.draw entry.write known }
        ensures { IfOk result (λ made. made ≡ effect (state_of self.now.parts) entry) }
    {
        let Entry {
            caller,
            write,
            moment,
            draw,
        } = entry;
        spent.set_caller(caller);
        let mut known = known;
        let effect = self.effect_by(alloc, who, moment, &draw, &mut known, write, spent);
        drop(known);
        effect
    }

    // What a write changes by that caller, at that moment and with that draw.
    #[tactic(auto, using(crate::proofs::Written::gives))]
    fn effect_by(
        &self,
        alloc: Global,
        who: Who,
        moment: Moment,
        draw: &Draw,
        known: &mut Known,
        write: Write,
        spent: &mut Spent,
    ) -> Result<Effect, Memory>
        requires judged { IsJudged write }
        requires known { IsKnown (state_of self.now.parts) draw.now write known.old }
        ensures { IfOk result (λ made. made ≡ effect_by (state_of self.now.parts) who moment draw.now write) }
    {
        match write {
            Write::Found { admin, base } => Ok(founding(alloc, admin, base, moment)),
            Write::Provider { name } => self.provider(alloc, name, moment, draw),
            Write::Put { id, statement } => {
                self.put(alloc, who, moment, draw, known, id, statement, spent)
            }
            Write::Post { statements } => {
                self.post(alloc, who, moment, draw, known, statements, spent)
            }
            Write::State {
                how,
                key,
                media,
                bytes,
            } => self.state(alloc, moment, how, key, media, bytes),
            Write::Drop {
                activity,
                agent,
                registration,
                state,
            } => self.drop_documents(alloc, moment, activity, agent, registration, state),
            Write::Course { tree } => self.course(alloc, moment, tree, spent),
            Write::Enrol {
                course,
                actor,
                edition,
            } => enrolling(alloc, &self.parts, moment, draw, course, actor, edition),
            Write::Launch {
                registration,
                unit,
                mode,
                return_url,
            } => launching(
                alloc,
                &self.parts,
                moment,
                draw,
                registration,
                unit,
                mode,
                return_url,
            ),
            Write::Fetch { key } => fetching(alloc, &self.parts, moment, draw, key),
            Write::Waive {
                registration,
                unit,
                reason,
            } => waiving(alloc, &self.parts, moment, draw, registration, unit, reason),
            Write::Abandon { session } => abandoning_one(alloc, &self.parts, moment, draw, session),
            Write::Sweep { idle } => sweeping(alloc, &self.parts, moment, draw, idle),
        }
    }

    // A provider, whose token tells the index of its entry.
    fn provider(
        &self,
        alloc: Global,
        name: Text,
        moment: Moment,
        draw: &Draw,
    ) -> Result<Effect, Memory>
        ensures { IfOk result (λ made. made ≡ making (state_of self.now.parts) moment name
            (token_text self.now.parts.length draw.now.secret)) }
    {
        let token = token_text(alloc, self.parts.length, draw.secret)?;
        let told = token.clone()?;
        let index = self.parts.providers.len();
        let mut effect = Effect::no_change(alloc, moment);
        effect.providers = ProvidersChange::of_new(HeldProvider { name, token });
        effect.acceptance = Acceptance::Provider { index, token: told };
        Ok(effect)
    }

    // A session says more behind its statement: that needs the draw.
    fn put(
        &self,
        alloc: Global,
        who: Who,
        moment: Moment,
        draw: &Draw,
        known: &Known,
        id: Id,
        statement: Tree,
        spent: &mut Spent,
    ) -> Result<Effect, Memory>
        requires judged { IsJudgedTree statement }
        requires known { IsKnownUnder (state_of self.now.parts) id known.now }
        ensures { IfOk result (λ made. made
            ≡ effect_by (state_of self.now.parts) who moment draw.now (writes.Put id statement)) }
    {
        let held = self.is_held_under(known, &id);
        let mut added = Vec::new(alloc);
        self.push_new(&mut added, who, moment, &id, held, statement, spent)?;
        self.owe_behind_put(alloc, who, moment, draw, &id, &mut added)?;
        Ok(writing_new(alloc, moment, added))
    }

    // Whether a statement is held under the id of a put. It is looked up if that isn't known.
    fn is_held_under(&self, known: &Known, id: &Id) -> bool
        requires { IsKnownUnder (state_of self.now.parts) id.now known.now }
        ensures { result ≡ is_held id.now (state_of self.now.parts).statements }
    {
        match known {
            Known::Put { is_held } => *is_held,
            Known::Nothing | Known::Batch(_) => self.parts.statements.is_held(id),
        }
    }

    fn post(
        &self,
        alloc: Global,
        who: Who,
        moment: Moment,
        draw: &Draw,
        known: &mut Known,
        statements: Items<Tree>,
        spent: &mut Spent,
    ) -> Result<Effect, Memory>
        requires judged { AllByRecursion IsJudgedTree statements }
        requires known { IsKnownOf (state_of self.now.parts) draw.now statements known.old }
        ensures { IfOk result (λ made. made
            ≡ effect_by (state_of self.now.parts) who moment draw.now (writes.Post statements)) }
    {
        let batch = self.known_batch(alloc, draw, known, statements.as_slice())?;
        let Batch {
            ids,
            held,
            mut supply,
        } = batch;
        let flags = held.into_vec();
        let trees = statements.into_vec();
        let mut added = self.new_of_batch(alloc, who, moment, ids.as_slice(), flags, trees, spent)?;
        self.owe_behind(alloc, who, moment, &mut supply, &mut added)?;
        Ok(writing_all(alloc, moment, added, ids))
    }

    // Statements that come together, by the ids under which they go: as they are known, else their ids are made.
    fn known_batch(
        &self,
        alloc: Global,
        draw: &Draw,
        known: &mut Known,
        statements: &[Tree],
    ) -> Result<Batch, Memory>
        requires { IsKnownOf (state_of self.now.parts) draw.now statements.now known.old }
        ensures { IfOk result (IsBatch (state_of self.now.parts) draw.now statements.now) }
    {
        match known.take_batch() {
            Some(batch) => Ok(batch),
            None => batch_of(alloc, &self.parts, draw, statements),
        }
    }

    fn state(
        &self,
        alloc: Global,
        moment: Moment,
        how: How,
        key: StateKey,
        media: Text,
        bytes: Items<u8>,
    ) -> Result<Effect, Memory>
        ensures { IfOk result (λ made. made ≡ writing (state_of self.now.parts) moment how key media bytes) }
    {
        let held = self.parts.documents.get(&key);
        match document_by(alloc, how, media, bytes, moment, held) {
            Ok(document) => {
                let mut effect = Effect::no_change(alloc, moment);
                effect.documents = DocumentsChange::Written { key, document };
                Ok(effect)
            }
            Err(refused) => {
                drop(key);
                Err(refused)
            }
        }
    }

    fn dropping(
        &self,
        alloc: Global,
        moment: Moment,
        activity: &Iri,
        agent: &Ifi,
        registration: &Option<Id>,
        state: &Option<Text>,
    ) -> Result<Effect, Memory>
        ensures { IfOk result (λ made. made
            ≡ dropping (state_of self.now.parts) moment activity.now agent.now registration.now state.now) }
    {
        let keys = self
            .parts
            .documents
            .keys(activity, agent, registration, state)?;
        let mut effect = Effect::no_change(alloc, moment);
        effect.documents = DocumentsChange::Dropped(keys);
        Ok(effect)
    }

    // The same, and drops what was named.
    fn drop_documents(
        &self,
        alloc: Global,
        moment: Moment,
        activity: Iri,
        agent: Ifi,
        registration: Option<Id>,
        state: Option<Text>,
    ) -> Result<Effect, Memory>
        ensures { IfOk result (λ made. made
            ≡ dropping (state_of self.now.parts) moment activity agent registration state) }
    {
        let effect = self.dropping(alloc, moment, &activity, &agent, &registration, &state);
        drop(activity);
        drop(agent);
        drop(state);
        effect
    }

    fn course(
        &self,
        alloc: Global,
        moment: Moment,
        tree: Tree,
        spent: &mut Spent,
    ) -> Result<Effect, Memory>
        requires fits { Fits (view tree) }
        requires unbroken { broken_rule (view tree) ≡ None }
        ensures { IfOk result (λ made. made ≡ taking (state_of self.now.parts) moment (course_of tree)) }
    {
        let effect = taking(alloc, &self.parts, moment, &tree);
        spent.push_tree(tree);
        effect
    }

    // Puts a statement after the new ones, if none is held under its id and its caller has an authority.
    fn push_new(
        &self,
        added: &mut Vec<StoredStatement>,
        who: Who,
        moment: Moment,
        id: &Id,
        held: bool,
        statement: Tree,
        spent: &mut Spent,
    ) -> Result<(), Memory>
        requires judged { IsJudgedTree statement }
        requires held { held ≡ is_held id.now (state_of self.now.parts).statements }
        ensures { OnOk result (added.new.items
            ≡ added.old.items
            ++ new_by (state_of self.now.parts) who moment (record { id = id.now; tree = statement } ∷ [])) }
    {
        if held {
            spent.push_tree(statement);
            return Ok(());
        }
        if let Some(authority) = authority_of(&self.parts, who)? {
            added.push(Statement::of(statement).complete(*id, moment, authority))?;
        }
        Ok(())
    }

    // The statements of a batch that aren't held, as they are kept.
    fn new_of_batch(
        &self,
        alloc: Global,
        who: Who,
        moment: Moment,
        ids: &[Id],
        held: Vec<bool>,
        statements: Vec<Tree>,
        spent: &mut Spent,
    ) -> Result<Vec<StoredStatement>, Memory>
        requires judged { AllByRecursion IsJudgedTree statements.items }
        requires told { TellHeld (state_of self.now.parts) held.items ids.now }
        ensures { IfOk result (λ added. added.items
            ≡ new_by (state_of self.now.parts) who moment (with_these_ids ids.now statements.items)) }
    {
        let mut added = Vec::with_capacity(alloc, ids.len())?;
        self.push_each(&mut added, who, moment, ids, held, statements, spent)?;
        Ok(added)
    }

    // Puts those of a batch that aren't held after the new ones.
    fn push_each(
        &self,
        added: &mut Vec<StoredStatement>,
        who: Who,
        moment: Moment,
        ids: &[Id],
        held: Vec<bool>,
        statements: Vec<Tree>,
        spent: &mut Spent,
    ) -> Result<(), Memory>
        requires judged { AllByRecursion IsJudgedTree statements.items }
        requires told { TellHeld (state_of self.now.parts) held.items ids.now }
        ensures { OnOk result (added.new.items
            ≡ added.old.items
            ++ new_by (state_of self.now.parts) who moment (with_these_ids ids.now statements.items)) }
    {
        let mut flags = held.into_iter();
        let mut left = statements.into_iter();
        let pushed = self.push_left(added, who, moment, ids, &mut flags, &mut left, spent);
        drop(left);
        drop(flags);
        pushed
    }

    // The same of those that are left of a batch.
    fn push_left(
        &self,
        added: &mut Vec<StoredStatement>,
        who: Who,
        moment: Moment,
        ids: &[Id],
        held: &mut IntoIter<bool>,
        statements: &mut IntoIter<Tree>,
        spent: &mut Spent,
    ) -> Result<(), Memory>
        requires judged { AllByRecursion IsJudgedTree (into_iter_items statements.old) }
        requires told { TellHeld (state_of self.now.parts) (into_iter_items held.old) ids.now }
        ensures { OnOk result (added.new.items
            ≡ added.old.items
            ++ new_by (state_of self.now.parts) who moment
            (with_these_ids ids.now (into_iter_items statements.old))) }
    {
        for id in ids {
            match statements.next() {
                Some(statement) => {
                    let is_held = self.is_next_held(held, id);
                    self.push_new(added, who, moment, id, is_held, statement, spent)?;
                }
                None => return Ok(()),
            }
        }
        Ok(())
    }

    // Whether a statement is held under that id, which is the next. It is looked up where nothing is told of it.
    fn is_next_held(&self, held: &mut IntoIter<bool>, id: &Id) -> bool
        requires { TellsNext (state_of self.now.parts) (into_iter_items held.old) id.now }
        ensures held { result ≡ is_held id.now (state_of self.now.parts).statements }
        ensures rest { into_iter_items held.new ≡ drop 1 (into_iter_items held.old) }
    {
        match held.next() {
            Some(told) => told,
            None => self.parts.statements.is_held(id),
        }
    }
}

#[tactic(auto, using(crate::proofs::Founded::base_is_iri))]
fn founding(alloc: Global, admin: Text, base: Text, moment: Moment) -> Effect
    requires { IsBase base }
    ensures { result ≡ record (no_change moment) { founding = Some (record { admin = admin; base = base }) } }
{
    match Iri::read(base) {
        Ok(base) => {
            let mut effect = Effect::no_change(alloc, moment);
            effect.founding = Some(Founding { admin, base });
            effect
        }
        Err(_) => unreachable!(),
    }
}

fn writing_new(alloc: Global, moment: Moment, added: Vec<StoredStatement>) -> Effect
    ensures { result ≡ record (no_change moment) { statements = added.items } }
{
    let mut effect = Effect::no_change(alloc, moment);
    effect.statements = Items::from_vec(added);
    effect
}

fn writing_all(alloc: Global, moment: Moment, added: Vec<StoredStatement>, ids: Items<Id>) -> Effect
    ensures { result ≡ record (no_change moment) { statements = added.items; acceptance = acceptance.Ids ids } }
{
    let mut effect = writing_new(alloc, moment, added);
    effect.acceptance = Acceptance::Ids(ids);
    effect
}

// The document that is written over what is held.
fn document_by(
    alloc: Global,
    how: How,
    media: Text,
    bytes: Items<u8>,
    moment: Moment,
    held: Option<&Document>,
) -> Result<Document, Memory>
    ensures { IfOk result (λ document. document ≡ document_by how media bytes moment (option_copied held.entry)) }
{
    match how {
        How::Put => Ok(Document {
            media,
            bytes,
            moment,
        }),
        How::Post => posted(alloc, media, bytes, moment, held),
    }
}
