// The desk: a journal, the fold over its entries, and the line, which says what became of each act.
ghost use Rattle.std.specs.Prelude.{◌≡◌, ◌<◌, ◌≤◌, ◌+◌, ◌-◌, ◌^◌, List, ℕ, Some, None, Result, length, map, option_map, true, false, nat_lt, if◌then◌else◌, IfOk, IfErr};
ghost use Rattle.std.specs.Option.{ForSome};
ghost use Rattle.lrs_disk.specs.Disk.{LeavesOnly};
ghost use Rattle.lrs_disk.specs.Faults.{Rises};
ghost use Rattle.lrs_journal.specs.Journal.{TellsAlike};
ghost use Rattle.lrs_journal.specs.Store.{Stands};
ghost use Rattle.lrs_record.specs.declared.entry.Caller.TheVariants.{Operator};
ghost use Rattle.lrs_command.specs.Commands.{HasReadTrees};
ghost use Rattle.lrs_record.specs.Entries.{AreLawfulTrees, IsLawfulCaller, IsLawfulTree, written_entry};
ghost use Rattle.lrs_json.specs.View.{view};
ghost use Rattle.lrs_fold.specs.LrsHistoryHistory.{answer, state, IsLegal};
ghost use Rattle.lrs_replies.specs.Replies.{Says, status_in};
ghost use Rattle.lrs_replies.specs.declared.answered.Answered.{Answered};
ghost use Rattle.lrs_replies.specs.declared.reply.Trouble.{Trouble};
ghost use Rattle.lrs_fold.specs.Own.{put_of, IsOfPut, IsPut};
ghost use Rattle.lrs_fold.specs.Posted.{post_of};
ghost use Rattle.lrs_fold.specs.XapiPagesListings.{listed_of_all};
ghost use Rattle.lrs_machine.specs.Line.{in_doubt, sure};
ghost use Rattle.lrs_machine.specs.Acts.{Acts, HasDiskCause, LineGoesOn};
ghost use Rattle.lrs_machine.specs.Desk.{history, HoldsPrefix, IsOnDisk, KeepsLine, LeavesNoSlot, LeavesStore, StopsWithin, lets_in, marks_of, receipt_of};
ghost use Rattle.lrs_machine.specs.Origin.{IsOfOrigin};
ghost use Rattle.lrs_machine.specs.Steps.{Happens, line_after};

use crate::acting::{Done, act};
use crate::{Receipt, Record, Spent};
use lrs_command::Area;
use lrs_disk::{Disk, Failed};
use lrs_fold::{Fold, Submission, barred, post_of, put_of, who_is};
use lrs_journal::Journal;
use lrs_json::{Items, Tree};
use lrs_names::{Draw, Id};
use lrs_noted::Noted;
use lrs_record::{Caller, Entry};
use lrs_replies::{Answered, Reply, Trouble, reply_to, status_in};
use lrs_turn::Journaled;
use std::alloc::Global;
use std::marker::Model;
use std::mem;
use std::snapshot::Snapshot;

/// One history of accepted writes on a disk, and the state that follows from it. Clauses see it as a line of records.
#[derive(Drop)]
pub struct Desk<D: Disk> {
    pub(crate) journal: Journal<D>,
    pub(crate) fold: Fold,
    pub(crate) alloc: Global,
    /// The disk's moment at the end of the opening, and how many entries stood then.
    pub(crate) opened_at: u64,
    pub(crate) opened: u64,
    /// The journal as it was then, for clauses alone.
    pub(crate) origin: Snapshot<Journal<D>>,
    /// How many records the line has.
    pub(crate) records: u64,
    /// What the last act left over, of which clauses see nothing.
    pub(crate) spent: Spent,
    pub(crate) opening: Noted<Entry>,
    pub(crate) acts: Noted<Record>,
}

impl<D: Disk> Model for Desk<D> {
    ghost use Rattle.std.specs.Coded.{codes};
    ghost use Rattle.lrs_json.specs.contracts.tree.Tree as tree;
    ghost use Rattle.lrs_machine.specs.Desk.{Desk as SpecDesk};
    ghost use Rattle.lrs_machine.specs.Fold.{state_of};
    ghost use Rattle.lrs_machine.specs.Line.{entries, line_of};
    ghost use Rattle.lrs_machine.specs.Origin.{ComesFrom};
    ghost use Rattle.lrs_machine.specs.Steps.{IsBegun, IsCounted, IsTied};

    ghost Value = { SpecDesk D };

    ghost coded = { Prim.hlevel (codes, tree.the_row.coded, D.code) };

    ghost view = { λ d. record {
      disk = d.journal.disk;
      limit = d.journal.limit;
      opened_at = d.opened_at;
      opened = d.opened;
      origin = d.origin.value.disk;
      line = line_of d.opened_at d.opening.items d.acts.items;
      parts = d.fold.parts;
    } };

    ghost invariant = { λ d. IsTied D.told D.image D.time D.image_since d.journal (state_of d.fold)
        (line_of d.opened_at d.opening.items d.acts.items) × IsBegun d.opened d.opening.items
        × IsCounted d.records (line_of d.opened_at d.opening.items d.acts.items)
        × ComesFrom D.told D.time D.image_since d.journal.limit d.opened
        (entries (line_of d.opened_at d.opening.items d.acts.items)) d.origin.value.disk d.journal.disk };
}

// Adds the record of an act that changed the journal. At run time it is only counted.
fn note(
    acts: &mut Noted<Record>,
    records: &mut u64,
    made: Option<Snapshot<Entry>>,
    acknowledged: bool,
    landed: Option<u64>,
    moment: u64,
)
    requires { records.old < 2 ^ 64 - 1 }
    ensures noted { acts.new.items
        ≡ line_after acts.old.items (option_map (λ s. s.value) made) acknowledged landed moment }
    ensures counted { records.new + length acts.old.items ≡ records.old + length acts.new.items }
{
    if made.is_some() || landed.is_some() {
        let record = Record {
            acknowledged: made.is_some() && acknowledged,
            made,
            landed: landed.is_some(),
            moment,
        };
        *acts = acts.and(&record);
        *records += 1;
    }
}

impl<D: Disk> Desk<D> {
    /// The number of entries, including one in doubt.
    pub fn length(&self) -> u64
        ensures { result ≡ length (history self.now) }
    {
        self.journal.length()
    }

    /// The number of records of its line: the entries that stood at its opening, and the acts since then that changed
    /// the journal.
    pub fn records(&self) -> u64
        ensures number { result ≡ length self.now.line }
        // What is true of every desk, whoever acted on it before.
        ensures durable { IsOnDisk D.told D.image D.time D.image_since self.now }
        ensures origin { IsOfOrigin D.told D.time D.image_since self.now }
    {
        self.records
    }

    /// The bytes that the journal's file may have.
    pub fn limit(&self) -> u64
        ensures { result ≡ self.now.limit }
    {
        self.journal.limit()
    }

    /// How often a call of the disk has failed.
    pub fn faults(&self) -> u64
        ensures { result ≡ D.fault_count self.now.disk }
    {
        self.journal.faults()
    }

    /// Whether a caller is let into an area. Whoever isn't is refused, whatever it asks there.
    pub fn lets_in(&self, caller: &Caller, area: Area) -> bool
        ensures { result ≡ lets_in (history self.now) caller.now area }
    {
        barred(area, who_is(&self.fold.parts, caller)).is_none()
    }

    fn answer(
        &mut self,
        caller: Caller,
        command: Submission,
        clock: u64,
        draw: &Draw,
    ) -> (Result<Answered, Trouble>, Option<u64>)
        requires caller { IsLawfulCaller caller }
        requires command { HasReadTrees command }
        ensures happens { Happens (answer self.old.limit (history self.old) caller command clock draw.now) result.0
            result.1 (D.time self.new.disk) self.old.line self.new.line }
        ensures cause { HasDiskCause (D.fault_count self.old.disk) (D.fault_count self.new.disk) result.0 }
        ensures known { IsPut caller command → IfOk result.0 IsOfPut }
        ensures same { (self.new.limit ≡ self.old.limit) × (self.new.opened ≡ self.old.opened)
            × (self.new.opened_at ≡ self.old.opened_at) }
        ensures origin { self.new.origin ≡ self.old.origin }
        ensures tells { TellsAlike (D.told self.old.disk) (D.told self.new.disk) }
        ensures later { D.time self.old.disk ≤ D.time self.new.disk }
        ensures stops { StopsWithin D.told D.time D.image_since self.old self.new }
        ensures slots { LeavesNoSlot self.old self.new }
        ensures durable { IsOnDisk D.told D.image D.time D.image_since self.new }
    {
        // Nobody took out what an earlier act left over.
        mem::replace(&mut self.spent, Spent::none(self.alloc)).discard();
        let Done { said, made, landed } = act(
            self.alloc,
            &mut self.journal,
            &mut self.fold,
            &mut self.spent,
            caller,
            command,
            clock,
            draw,
        );
        note(
            &mut self.acts,
            &mut self.records,
            made,
            said.is_ok(),
            landed,
            self.journal.moment(),
        );
        (said, landed)
    }

    fn receipt(&self, status: u16, point: u64, landed: Option<u64>, clock: u64, was: u64) -> Receipt
        ensures { result ≡ record {
          acted = true;
          status = status;
          point = point;
          entry = if nat_lt point (length (history self.now)) then Some point else None;
          landed = landed;
          clock = clock;
          disk = D.time self.now.disk;
          was = was;
          is = D.fault_count self.now.disk;
        } }
    {
        let length = self.length();
        Receipt {
            acted: true,
            status,
            point,
            entry: if point < length { Some(point) } else { None },
            landed,
            clock,
            disk: self.journal.moment(),
            was,
            is: self.faults(),
        }
    }

    /// Keeps a statement under an id as the operator, the program itself: its answer as a value, and its receipt.
    ///
    /// First a doubt about an earlier entry is ended. All memory is taken before anything is written.
    pub fn put(
        &mut self,
        id: Id,
        statement: Tree,
        clock: u64,
        draw: &Draw,
    ) -> (Result<Answered, Trouble>, Receipt)
        requires { IsLawfulTree (view statement) }
        ensures acts { Acts (answer self.old.limit (history self.old) Operator (put_of id statement) clock draw.now)
            result.0 result.1 self.old.line self.new.line }
        ensures known { IfOk result.0 IsOfPut }
        ensures same { (self.new.limit ≡ self.old.limit) × (self.new.opened ≡ self.old.opened)
            × (self.new.opened_at ≡ self.old.opened_at) }
        ensures tells { TellsAlike (D.told self.old.disk) (D.told self.new.disk) }
        ensures later { D.time self.old.disk ≤ D.time self.new.disk }
        ensures stops { StopsWithin D.told D.time D.image_since self.old self.new }
        ensures slots { LeavesNoSlot self.old self.new }
        ensures durable { IsOnDisk D.told D.image D.time D.image_since self.new }
        ensures receipt { result.1 ≡ receipt_of D.time D.fault_count self.old self.new (status_in result.0) clock }
    {
        let was = self.faults();
        let point = self.length();
        let (said, landed) = self.answer(Caller::Operator, put_of(id, statement), clock, draw);
        let receipt = self.receipt(status_in(&said), point, landed, clock, was);
        (said, receipt)
    }

    /// Keeps statements together as the operator, the program itself, each under the id that it gives itself or one
    /// that is made: the answer as a value, and its receipt. The rest is as for `put`.
    pub fn post(
        &mut self,
        statements: Items<Tree>,
        clock: u64,
        draw: &Draw,
    ) -> (Result<Answered, Trouble>, Receipt)
        requires { AreLawfulTrees statements }
        ensures acts { Acts (answer self.old.limit (history self.old) Operator (post_of statements) clock draw.now)
            result.0 result.1 self.old.line self.new.line }
        ensures same { (self.new.limit ≡ self.old.limit) × (self.new.opened ≡ self.old.opened)
            × (self.new.opened_at ≡ self.old.opened_at) }
        ensures tells { TellsAlike (D.told self.old.disk) (D.told self.new.disk) }
        ensures later { D.time self.old.disk ≤ D.time self.new.disk }
        ensures stops { StopsWithin D.told D.time D.image_since self.old self.new }
        ensures slots { LeavesNoSlot self.old self.new }
        ensures durable { IsOnDisk D.told D.image D.time D.image_since self.new }
        ensures receipt { result.1 ≡ receipt_of D.time D.fault_count self.old self.new (status_in result.0) clock }
    {
        let was = self.faults();
        let point = self.length();
        let (said, landed) = self.answer(Caller::Operator, post_of(statements), clock, draw);
        let receipt = self.receipt(status_in(&said), point, landed, clock, was);
        (said, receipt)
    }

    /// How many statements a query without filters lists to an admin. An entry in doubt counts.
    pub fn listed(&self) -> u64
        ensures { result ≡ listed_of_all (state (history self.now)).statements }
    {
        self.fold.listed()
    }

    /// Answers a command, with its receipt. What rests on the command alone may have been found when it was submitted.
    ///
    /// First a doubt about an earlier entry is ended. All memory is taken before anything is written, so after that
    /// the desk can only acknowledge the entry or report that the disk failed.
    pub fn act(
        &mut self,
        caller: Caller,
        command: Submission,
        clock: u64,
        draw: &Draw,
    ) -> (Reply, Receipt)
        requires caller { IsLawfulCaller caller }
        requires command { HasReadTrees command }
        ensures acts { (said : Result Answered Trouble) × Says said result.0
            × Acts (answer self.old.limit (history self.old) caller command clock draw.now) said result.1
            self.old.line self.new.line }
        // The receipt tells a worker whether there is a record to commit.
        ensures line { LineGoesOn result.1 self.old.line self.new.line }
        ensures marks { marks_of D.row.coded self.new ≡ marks_of D.row.coded self.old }
        ensures tide { D.fault_count self.old.disk ≤ D.fault_count self.new.disk }
        ensures same { (self.new.limit ≡ self.old.limit) × (self.new.opened ≡ self.old.opened)
            × (self.new.opened_at ≡ self.old.opened_at) }
        ensures tells { TellsAlike (D.told self.old.disk) (D.told self.new.disk) }
        ensures later { D.time self.old.disk ≤ D.time self.new.disk }
        // A crash at any moment of the act leaves the first entries, at least all that stood without doubt before.
        ensures stops { StopsWithin D.told D.time D.image_since self.old self.new }
        ensures slots { LeavesNoSlot self.old self.new }
        ensures durable { IsOnDisk D.told D.image D.time D.image_since self.new }
        ensures receipt { result.1 ≡ receipt_of D.time D.fault_count self.old self.new result.0.status clock }
    {
        let was = self.faults();
        let point = self.length();
        let (said, landed) = self.answer(caller, command, clock, draw);
        let reply = reply_to(self.alloc, said);
        let receipt = self.receipt(reply.status, point, landed, clock, was);
        (reply, receipt)
    }

    /// Takes out what the last act left over.
    pub fn take_spent(&mut self) -> Spent
        ensures { self.new ≡ self.old }
    {
        mem::replace(&mut self.spent, Spent::none(self.alloc))
    }

    /// Ends a doubt, and hands the disk back. If that fails, the disk comes back with the failure.
    pub fn close(self) -> Result<D, (Failed, D)>
        ensures closed { IfOk result (λ disk. ForSome (D.told self.disk)
            (λ _. LeavesStore D.told disk self.limit false (history self))) }
        ensures durable { IfOk result (λ disk. (bytes : List ℕ) → D.image disk bytes
            → Stands bytes self.limit (map written_entry (history self))) }
        ensures failed { IfErr result (λ e. (in_doubt self.line ≡ true)
            × ForSome (D.told self.disk) (λ _. LeavesStore D.told e.1 self.limit true (history self))) }
        ensures legal { IsLegal self.limit (history self) }
        ensures later { IfOk result (λ disk. D.time self.disk ≤ D.time disk) }
        ensures later_err { IfErr result (λ e. D.time self.disk ≤ D.time e.1) }
        // A crash at any moment leaves the first entries, at least all that stood without doubt.
        ensures stops { IfOk result (λ disk. ForSome (D.told self.disk) (λ _.
            LeavesOnly D.time D.image_since self.disk disk (HoldsPrefix self.limit (sure self.line) (history self)))) }
        ensures stops_err { IfErr result (λ e. ForSome (D.told self.disk) (λ _.
            LeavesOnly D.time D.image_since self.disk e.1 (HoldsPrefix self.limit (sure self.line) (history self)))) }
        ensures kept_line { IfOk result (λ disk. ForSome (D.told self.disk)
            (λ _. KeepsLine self.limit (D.time disk) (D.image_since disk) self.line)) }
        ensures kept_line_err { IfErr result (λ e. ForSome (D.told self.disk)
            (λ _. KeepsLine self.limit (D.time e.1) (D.image_since e.1) self.line)) }
        ensures kept { IfOk result (λ disk. D.fault_count disk ≡ D.fault_count self.disk) }
        ensures cause { IfErr result (λ e. (D.fault_count self.disk ≤ D.fault_count e.1)
            × Rises (D.fault_count self.disk) (D.fault_count e.1)) }
    {
        let Desk {
            mut journal,
            fold,
            alloc: _,
            opened_at: _,
            opened: _,
            origin: _,
            records: _,
            spent,
            opening: _,
            acts: _,
        } = self;
        spent.discard();
        fold.discard();
        match journal.settle() {
            Ok(_) => Ok(journal.into_disk()),
            Err(failed) => Err((failed, journal.into_disk())),
        }
    }
}

// Workers may take a desk in turns. Its tide is the disk's count of faults and its moment.
impl<D: Disk> Journaled for Desk<D> {
    ghost use Rattle.std.specs.Prelude.{◌≡◌, length};
    ghost use Rattle.lrs_machine.specs.Desk.{marks_of, tide_of};

    type Record = Record;

    ghost line = { λ d. d.line };

    ghost marks = { λ d. marks_of D.row.coded d };

    ghost tide = { λ d. tide_of D.fault_count D.time d };

    fn length(&self) -> u64
        ensures { result ≡ length self.now.line }
    {
        self.records()
    }
}

fn moves<T: Send>(_value: &T) {}

// A desk may go to another thread if its disk may.
fn may_cross<D: Disk + Send>(desk: &Desk<D>) {
    moves(desk);
}
