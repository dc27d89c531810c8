// What the store says of its own behind new statements of a session.
ghost use Rattle.std.specs.Prelude.{◌≡◌, ◌∷◌, ◌++◌, [], OnOk};
ghost use Rattle.std.specs.Option.{option_copied};
ghost use Rattle.lrs_fold.specs.Written.{speaks_in};
ghost use Rattle.lrs_reads.specs.LrsHistoryEffects.{owed_in_session};
ghost use Rattle.lrs_reads.specs.LrsHistoryEnrolments.{enrolled};
ghost use Rattle.lrs_reads.specs.LrsHistoryMade.{owed_made};
ghost use Rattle.lrs_reads.specs.LrsHistoryWhose.{launch_of};
ghost use Rattle.lrs_ids.specs.Ids.{supply_of};
ghost use Rattle.lrs_ids.specs.IdSupply.{left_of};
ghost use Rattle.lrs_learning.specs.LrsPartsParts.{state_of};
ghost use Rattle.lrs_learning.specs.LrsStateState.{used_in};

use crate::Fold;
use cmi5_course::Launch;
use lrs_command::Who;
use lrs_ids::IdSupply;
use lrs_json::Memory;
use lrs_names::{Draw, Id};
use lrs_reads::{add_owed, enrolled, launch_of};
use lrs_record::Moment;
use std::alloc::Global;
use xapi_statement::StoredStatement;

impl Fold {
    /// Puts what is owed behind the new statement of a put. Its ids are made for a session alone.
    pub(crate) fn owe_behind_put(
        &self,
        alloc: Global,
        who: Who,
        moment: Moment,
        draw: &Draw,
        id: &Id,
        added: &mut Vec<StoredStatement>,
    ) -> Result<(), Memory>
        ensures { OnOk result (added.new.items ≡ added.old.items ++ owed_in_session (state_of self.now.parts)
            (supply_of (used_in (state_of self.now.parts)) (id.now ∷ []) draw.now.name) moment added.old.items
            (launch_of (state_of self.now.parts) who)) }
    {
        match self.speaks_in(who, added.as_slice()) {
            Some(launch) => self.owe_drawn(alloc, launch, moment, draw, id, added),
            None => Ok(()),
        }
    }

    /// Puts what is owed behind the new statements of a post, under the ids that are left.
    pub(crate) fn owe_behind(
        &self,
        alloc: Global,
        who: Who,
        moment: Moment,
        supply: &mut IdSupply,
        added: &mut Vec<StoredStatement>,
    ) -> Result<(), Memory>
        ensures { OnOk result (added.new.items ≡ added.old.items ++ owed_in_session (state_of self.now.parts)
            (left_of (used_in (state_of self.now.parts)) supply.old) moment added.old.items
            (launch_of (state_of self.now.parts) who)) }
    {
        match self.speaks_in(who, added.as_slice()) {
            Some(launch) => self.owe(alloc, launch, moment, supply, added),
            None => Ok(()),
        }
    }

    // The launch in whose session a caller says something new.
    fn speaks_in(&self, who: Who, said: &[StoredStatement]) -> Option<&Launch>
        ensures { option_copied result ≡ speaks_in said.now (launch_of (state_of self.now.parts) who) }
    {
        match said.first() {
            Some(_) => launch_of(&self.parts, who),
            None => None,
        }
    }

    // Puts what is owed behind new statements in the session of that launch: under the ids of a draw that go with one
    // statement of that id.
    fn owe_drawn(
        &self,
        alloc: Global,
        launch: &Launch,
        moment: Moment,
        draw: &Draw,
        id: &Id,
        added: &mut Vec<StoredStatement>,
    ) -> Result<(), Memory>
        ensures { OnOk result (added.new.items ≡ added.old.items ++ owed_made (state_of self.now.parts)
            launch.now.session (supply_of (used_in (state_of self.now.parts)) (id.now ∷ []) draw.now.name) moment
            added.old.items (enrolled (state_of self.now.parts) launch.now.registration)) }
    {
        let mut supply = IdSupply::new(alloc, &self.parts, &[*id], draw.name)?;
        self.owe(alloc, launch, moment, &mut supply, added)
    }

    // The same under the ids of a supply.
    fn owe(
        &self,
        alloc: Global,
        launch: &Launch,
        moment: Moment,
        supply: &mut IdSupply,
        added: &mut Vec<StoredStatement>,
    ) -> Result<(), Memory>
        ensures { OnOk result (added.new.items ≡ added.old.items ++ owed_made (state_of self.now.parts)
            launch.now.session (left_of (used_in (state_of self.now.parts)) supply.old) moment added.old.items
            (enrolled (state_of self.now.parts) launch.now.registration)) }
    {
        let known = enrolled(&self.parts, &launch.registration);
        add_owed(
            alloc,
            &self.parts,
            known.as_ref(),
            &launch.session,
            moment,
            supply,
            added,
        )
    }
}
