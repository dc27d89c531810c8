// What is counted of registrations, in the order in which they were made. The tallies of one that is to come are made
// ahead, with all that statements say of it already.
ghost use Rattle.std.specs.Prelude.{◌≡◌, ◌<◌, ◌+◌, ◌^◌, ◌==◌, [], ◌∷◌, ◌++◌, ℕ, List, None, false, true, length};
ghost use Rattle.std.specs.Prelude.{slice_get, IfNone, IfOk, IfSome, OnErr, OnOk};
ghost use Rattle.std.specs.Option.{option_map_or};
ghost use Rattle.cmi5_verdict.specs.Cmi5LaunchNames.{waived};
ghost use Rattle.cmi5_running_verdicts.specs.Holding.{StandBehindHolders};
ghost use Rattle.cmi5_running_verdicts.specs.Positions.{marked_at, marked_at_each};
ghost use Rattle.cmi5_running_verdicts.specs.Running.{HasCounted, TalliesStandFor};
ghost use Rattle.cmi5_running_verdicts.specs.Tallies.{AreTallies};
ghost use Rattle.cmi5_verdict.specs.Cmi5SessionMarked.{MarkedStatement, mark, marked};
ghost use Rattle.cmi5_verdict.specs.Nodes.{SeenEnrolment, activity_of_node, is_satisfied, owed, seen, verdicts};
ghost use Rattle.cmi5_verdict.specs.Statements.{all_of};
ghost use Rattle.cmi5_verdict.specs.Units.{stands};
ghost use Rattle.cmi5_verdict.specs.XapiStatementStored.{StoredStatement as SpecStatement};

use crate::counting::{count, discount, fresh};
use crate::tally::Tally;
use crate::telling::{any_voids, is_all_met_at, is_waived_at, owed_by_tallies, verdicts};
use cmi5_verdict::{Enrolment, HeldStatement, Index, Key, Statements, StoredStatement, owed};
use lrs_json::Memory;
use std::alloc::Global;
use std::marker::Model;

/// The tallies of the nodes of one registration's course, in the order of the text.
#[derive(Drop)]
pub(crate) struct Tallies {
    list: Vec<Tally>,
}

impl Model for Tallies {
    ghost use Rattle.std.specs.Prelude.{List};
    ghost use Rattle.cmi5_running_verdicts.specs.declared.tally.Tally.{Tally as SpecTally};

    ghost Value = { List SpecTally };

    ghost view = { λ t. t.list.items };
}

impl Tallies {
    fn of(list: Vec<Tally>) -> Tallies
        ensures { result ≡ list.items }
    {
        Tallies { list }
    }

    fn as_slice(&self) -> &[Tally]
        ensures { result.now ≡ self.now }
    {
        self.list.as_slice()
    }

    // Counts a statement that comes, voided or not.
    fn count(&mut self, enrolment: &Enrolment<'_>, statement: &StoredStatement, voided: bool)
        requires { StandBehindHolders enrolment.now.nodes.now }
        ensures { (those : List MarkedStatement) → length those + 1 < 2 ^ 64
            → AreTallies (seen enrolment.now) those self.old
            → AreTallies (seen enrolment.now) (those ++ mark statement.now voided ∷ []) self.new }
    {
        count(enrolment, statement, voided, self.list.as_mut_slice());
    }

    // Counts a statement no more, which is voided now.
    fn discount(&mut self, enrolment: &Enrolment<'_>, statement: &StoredStatement)
        requires { StandBehindHolders enrolment.now.nodes.now }
        ensures { (before behind : List MarkedStatement)
            → AreTallies (seen enrolment.now) (before ++ mark statement.now false ∷ behind) self.old
            → AreTallies (seen enrolment.now) (before ++ mark statement.now true ∷ behind) self.new }
    {
        discount(enrolment, statement, self.list.as_mut_slice());
    }
}

/// What is counted of registrations, which have numbers in the order in which they were made. Each is made by `ready`
/// and then `enrol`.
#[derive(Drop)]
pub struct Running {
    alloc: Global,
    held: Vec<Tallies>,
    // Those of a registration that is to come.
    coming: Option<Tallies>,
}

impl Model for Running {
    ghost use Rattle.std.specs.Prelude.{vec_len, vec_capacity, ◌-◌};
    ghost use Rattle.cmi5_running_verdicts.specs.Running.{SeenRunning};

    ghost Value = { SeenRunning };

    ghost view = { λ r. record {
      held = r.held.items;
      coming = r.coming;
      spare = vec_capacity r.held -
          vec_len r.held;
    } };
}

impl Running {
    pub fn new(alloc: Global) -> Running
        ensures held { result.held ≡ [] }
        ensures none { result.coming ≡ None }
    {
        Running {
            alloc,
            held: Vec::new(alloc),
            coming: None,
        }
    }

    // The tallies of the registration of that number.
    fn tallies(&self, number: u32) -> &[Tally]
        ensures { result.now ≡ option_map_or (λ tallies. tallies) (slice_get self.now.held number) [] }
    {
        match self.held.get(number as usize) {
            Some(tallies) => tallies.as_slice(),
            None => &[],
        }
    }

    // ---- what is to come

    /// Makes tallies for a registration that comes, counts what the statements say of it already, and makes room for
    /// them. What was made before is taken back. Without an enrolment none is to come.
    pub fn ready(
        &mut self,
        statements: &Index,
        enrolment: Option<&Enrolment<'_>>,
    ) -> Result<(), Memory>
        requires behind { IfSome enrolment (λ e. StandBehindHolders e.now.nodes.now) }
        ensures held { self.new.held ≡ self.old.held }
        ensures ready { OnOk result (IfSome enrolment.entry (λ e.
            HasCounted self.new (marked statements.now.held) (seen e.now))) }
        ensures none { IfNone enrolment.entry (self.new.coming ≡ None) }
        ensures nothing { OnErr result (self.new.coming ≡ None) }
    {
        self.release();
        match enrolment {
            Some(coming) => self.make(statements, coming),
            None => Ok(()),
        }
    }

    fn make(&mut self, statements: &Index, enrolment: &Enrolment<'_>) -> Result<(), Memory>
        requires behind { StandBehindHolders enrolment.now.nodes.now }
        requires nothing { self.old.coming ≡ None }
        ensures held { self.new.held ≡ self.old.held }
        ensures ready { OnOk result (HasCounted self.new (marked statements.now.held) (seen enrolment.now)) }
        ensures nothing { OnErr result (self.new.coming ≡ None) }
    {
        self.held.reserve(1)?;
        let made = counted(self.alloc, statements, enrolment)?;
        self.coming = Some(Tallies::of(made));
        Ok(())
    }

    /// Takes back what was made for a registration that doesn't come. It takes no memory.
    pub fn release(&mut self)
        ensures held { self.new.held ≡ self.old.held }
        ensures nothing { self.new.coming ≡ None }
    {
        self.coming = None;
    }

    /// Takes in the registration for which tallies were made. It takes no memory.
    pub fn enrol(&mut self)
        requires { (those : List MarkedStatement) × (e : SeenEnrolment) × HasCounted self.old those e }
        ensures stands { (those : List MarkedStatement) → (e : SeenEnrolment) → HasCounted self.old those e
            → TalliesStandFor self.new those (length self.old.held) e }
        ensures others { (k : ℕ) → k < length self.old.held
            → slice_get self.new.held k ≡ slice_get self.old.held k }
        ensures long { length self.new.held ≡ length self.old.held + 1 }
        ensures nothing { self.new.coming ≡ None }
    {
        if let Some(tallies) = self.coming.take() {
            self.held.push_reserved(tallies);
        }
    }

    // ---- what statements change

    /// Counts a statement that comes, voided or not, for the registration of that number. It takes no memory.
    pub fn install(
        &mut self,
        number: u32,
        enrolment: &Enrolment<'_>,
        statement: &StoredStatement,
        voided: bool,
    )
        requires { StandBehindHolders enrolment.now.nodes.now }
        ensures stands { (those : List MarkedStatement) → length those + 1 < 2 ^ 64
            → TalliesStandFor self.old those number (seen enrolment.now)
            → TalliesStandFor self.new (those ++ mark statement.now voided ∷ []) number (seen enrolment.now) }
        ensures others { (k : ℕ) → (k == number) ≡ false
            → slice_get self.new.held k ≡ slice_get self.old.held k }
        ensures long { length self.new.held ≡ length self.old.held }
        ensures coming { self.new.coming ≡ self.old.coming }
        ensures spare { self.new.spare ≡ self.old.spare }
    {
        if let Some(tallies) = self.held.get_mut(number as usize) {
            tallies.count(enrolment, statement, voided);
        }
    }

    /// Counts a statement no more, which is voided now, for the registration of that number. It takes no memory.
    pub fn void(&mut self, number: u32, enrolment: &Enrolment<'_>, statement: &StoredStatement)
        requires { StandBehindHolders enrolment.now.nodes.now }
        ensures stands { (before behind : List MarkedStatement)
            → TalliesStandFor self.old (before ++ mark statement.now false ∷ behind) number (seen enrolment.now)
            → TalliesStandFor self.new (before ++ mark statement.now true ∷ behind) number (seen enrolment.now) }
        ensures others { (k : ℕ) → (k == number) ≡ false
            → slice_get self.new.held k ≡ slice_get self.old.held k }
        ensures long { length self.new.held ≡ length self.old.held }
        ensures coming { self.new.coming ≡ self.old.coming }
        ensures spare { self.new.spare ≡ self.old.spare }
    {
        if let Some(tallies) = self.held.get_mut(number as usize) {
            tallies.discount(enrolment, statement);
        }
    }

    // ---- what is told

    /// Whether the node of that number is satisfied in the registration of that number.
    pub fn is_satisfied(&self, number: u32, index: u32) -> bool
        ensures { (e : SeenEnrolment) → (statements : List SpecStatement)
            → TalliesStandFor self.now (marked statements) number e → index < length e.nodes
            → result ≡ is_satisfied e statements index }
    {
        is_all_met_at(self.tallies(number), index as usize)
    }

    /// Whether each node is satisfied in the registration of that number, in the order of the text.
    pub fn verdicts(&self, alloc: Global, number: u32) -> Result<Vec<bool>, Memory>
        ensures { IfOk result (λ told. (e : SeenEnrolment) → (statements : List SpecStatement)
            → TalliesStandFor self.now (marked statements) number e → told.items ≡ verdicts e statements) }
    {
        verdicts(alloc, self.tallies(number))
    }

    /// Whether the unit of that number was waived in the registration of that number.
    pub fn is_waived(&self, number: u32, index: u32) -> bool
        ensures { (e : SeenEnrolment) → (statements : List SpecStatement)
            → TalliesStandFor self.now (marked statements) number e → index < length e.nodes
            → result ≡ stands statements e.registration (activity_of_node e index) waived }
    {
        is_waived_at(self.tallies(number), index as usize)
    }

    /// The numbers of the nodes that are satisfied in the registration of that number and of which this was never said,
    /// by the statements that are held and the new ones. Only if one of the new ones voids another, the held ones are
    /// gone through.
    pub fn owed(
        &self,
        alloc: Global,
        number: u32,
        statements: &Statements<'_>,
        enrolment: &Enrolment<'_>,
    ) -> Result<Vec<u32>, Memory>
        ensures { TalliesStandFor self.now (marked statements.now.held.now.held) number (seen enrolment.now)
            → IfOk result (λ indices. indices.items ≡ owed (seen enrolment.now) (all_of statements.now)) }
    {
        if any_voids(statements.new) {
            owed(alloc, statements, enrolment)
        } else {
            owed_by_tallies(alloc, self.tallies(number), statements, enrolment)
        }
    }
}

// ---- statements that were there before the registration

// The tallies of a registration that comes behind these statements.
fn counted(
    alloc: Global,
    statements: &Index,
    enrolment: &Enrolment<'_>,
) -> Result<Vec<Tally>, Memory>
    requires behind { StandBehindHolders enrolment.now.nodes.now }
    ensures { IfOk result (λ tallies.
        AreTallies (seen enrolment.now) (marked statements.now.held) tallies.items) }
{
    let mut tallies = fresh(alloc, enrolment.nodes)?;
    count_registered(alloc, statements, enrolment, tallies.as_mut_slice())?;
    Ok(tallies)
}

// Counts those under the key of the registration: the others say nothing of it.
fn count_registered(
    alloc: Global,
    statements: &Index,
    enrolment: &Enrolment<'_>,
    tallies: &mut [Tally],
) -> Result<(), Memory>
    requires behind { StandBehindHolders enrolment.now.nodes.now }
    requires fresh { AreTallies (seen enrolment.now) [] tallies.old }
    ensures counted { OnOk result (AreTallies (seen enrolment.now) (marked statements.now.held) tallies.new) }
    ensures long { length tallies.new ≡ length tallies.old }
{
    let key = Key::Registration(*enrolment.registration);
    let positions = statements.posting(&key);
    drop(key);
    count_each(alloc, statements, enrolment, positions, tallies)
}

// Counts those at these positions.
fn count_each(
    alloc: Global,
    statements: &Index,
    enrolment: &Enrolment<'_>,
    positions: &[u32],
    tallies: &mut [Tally],
) -> Result<(), Memory>
    requires behind { StandBehindHolders enrolment.now.nodes.now }
    requires fresh { AreTallies (seen enrolment.now) [] tallies.old }
    ensures counted { OnOk result (
        AreTallies (seen enrolment.now) (marked_at_each statements.now.held positions.now) tallies.new) }
    ensures long { length tallies.new ≡ length tallies.old }
{
    for nth in 0..positions.len() {
        count_nth(alloc, statements, enrolment, positions, nth, tallies)?;
    }
    Ok(())
}

fn count_nth(
    alloc: Global,
    statements: &Index,
    enrolment: &Enrolment<'_>,
    positions: &[u32],
    nth: usize,
    tallies: &mut [Tally],
) -> Result<(), Memory>
    requires { StandBehindHolders enrolment.now.nodes.now }
    ensures counted { OnOk result ((those : List MarkedStatement) → length those + 1 < 2 ^ 64
        → AreTallies (seen enrolment.now) those tallies.old
        → AreTallies (seen enrolment.now)
        (those ++ option_map_or (marked_at statements.now.held) (slice_get positions.now nth) []) tallies.new) }
    ensures long { length tallies.new ≡ length tallies.old }
{
    match position_at(positions, nth) {
        Some(position) => count_at(alloc, statements, enrolment, position, tallies),
        None => Ok(()),
    }
}

fn position_at(positions: &[u32], nth: usize) -> Option<usize>
    ensures { result ≡ slice_get positions.now nth }
{
    match positions.get(nth) {
        Some(position) => Some(*position as usize),
        None => None,
    }
}

// Counts the one at a position. One that is to come isn't there yet.
fn count_at(
    alloc: Global,
    statements: &Index,
    enrolment: &Enrolment<'_>,
    position: usize,
    tallies: &mut [Tally],
) -> Result<(), Memory>
    requires { StandBehindHolders enrolment.now.nodes.now }
    ensures counted { OnOk result ((those : List MarkedStatement) → length those + 1 < 2 ^ 64
        → AreTallies (seen enrolment.now) those tallies.old
        → AreTallies (seen enrolment.now) (those ++ marked_at statements.now.held position) tallies.new) }
    ensures long { length tallies.new ≡ length tallies.old }
{
    match statements.get(position) {
        Some(held) => {
            let voided = statements.is_voided_at(statements.len(), position);
            count_whole(alloc, enrolment, held, voided, tallies)
        }
        None => Ok(()),
    }
}

// Counts one that is held: its tree is read, and dropped again.
fn count_whole(
    alloc: Global,
    enrolment: &Enrolment<'_>,
    held: &HeldStatement,
    voided: bool,
    tallies: &mut [Tally],
) -> Result<(), Memory>
    requires { StandBehindHolders enrolment.now.nodes.now }
    ensures counted { OnOk result ((those : List MarkedStatement) → length those + 1 < 2 ^ 64
        → AreTallies (seen enrolment.now) those tallies.old
        → AreTallies (seen enrolment.now) (those ++ mark held.now voided ∷ []) tallies.new) }
    ensures long { length tallies.new ≡ length tallies.old }
{
    let statement = held.whole(alloc)?;
    count(enrolment, &statement, voided, tallies);
    drop(statement);
    Ok(())
}
