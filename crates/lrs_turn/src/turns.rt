// One state that workers take in turns.
ghost use Rattle.std.specs.Prelude.{◌≡◌, ◌⊎◌, length, MatchOption};
ghost use Rattle.lrs_turn.specs.Lists.{BeginsWith, NoneFalls};
ghost use Rattle.lrs_turn.specs.Passes.{IsIdle, HasTurn, IsOneMore, taken, pointed, committed, given, rested};

use crate::journaled::Journaled;
use crate::pass::Pass;
use crate::rule::{Commit, Fetch, Give, Keeps, ListBehind, Point, Rest, Take, TideBehind};
use crate::view::{Opening, View};
use atomic_table::{Badge, Seat, Table};
use std::alloc::Global;
use std::marker::{Brand, Model};
use std::mem::replace;
use std::sync::Wait;

/// How many passes turns have at most.
pub const MOST_PASSES: u32 = 16;

/// A state that workers take in turns, each with a pass of its own.
///
/// The list of records only grows, and only by `commit`. Workers may share the turns; each call takes the worker's
/// pass, which must be one of these turns.
pub struct Turns<S: Journaled> {
    pub(crate) table: Table<Option<S>, View<S::Record>, Opening<S>, Keeps, Global>,
}

impl<S: Journaled> Model for Turns<S> {
    ghost use Rattle.lrs_turn.specs.Passes.{Turns as SpecTurns};
    ghost use Rattle.lrs_turn.specs.Views.{AreTurns};

    ghost Value = { SpecTurns };

    ghost view = { λ t. record { id = t.table.shared.table_id; passes = t.table.shared.key.passes } };

    ghost invariant = { λ t. AreTurns t.table.shared.table_id t.table.shared.key.passes };
}

impl<S: Journaled> Turns<S> {
    // The state, if nobody has the turn.
    fn try_take(&self, pass: &mut Pass<S::Record>) -> Option<S>
        requires { IsIdle self.now pass.old }
        ensures { MatchOption result
            (pass.new ≡ pass.old)
            (λ state. (pass.new ≡ taken (S.line state) (S.tide state) pass.old)
            × BeginsWith pass.old.front (S.line state) × (S.marks state ≡ pass.old.marks)
            × NoneFalls pass.old.tide (S.tide state) × (self.now.passes ≡ 1 → S.tide state ≡ pass.old.tide)) }
    {
        let shared = &self.table.shared;
        let badge = replace(&mut pass.badge, Badge::blank());
        let mut seat: Seat<Option<S>, View<S::Record>> = badge.into_seat();
        let found = shared.compare_exchange::<Take>(&mut seat, 1, 0, 1);
        if found == 1 {
            pass.badge = seat.into_badge();
            return None;
        }
        let state = shared.exchange(&mut seat, 0, None);
        shared.load::<Rest>(&mut seat, 0);
        pass.badge = seat.into_badge();
        state
    }

    /// Waits for the turn, and takes the state.
    pub fn take<R: Wait>(&self, rt: &R, pass: &mut Pass<S::Record>) -> S
        requires { IsIdle self.now pass.old }
        ensures turn { HasTurn self.now pass.new }
        ensures pass { pass.new ≡ taken (S.line result) (S.tide result) pass.old }
        ensures line { BeginsWith pass.old.front (S.line result) }
        ensures marks { S.marks result ≡ pass.old.marks }
        ensures tide { NoneFalls pass.old.tide (S.tide result) }

        // With one pass nobody else has come between.
        ensures alone { self.now.passes ≡ 1 → S.tide result ≡ pass.old.tide }
    {
        for _ in rt.forever() {
            if let Some(state) = self.try_take(pass) {
                return state;
            }
            self.table.shared.park(rt, 1, 1);
        }
        unreachable!()
    }

    /// Notes that the worker has seen the state's list. To be called where it acted and added no record.
    pub fn point(&self, pass: &mut Pass<S::Record>, state: &S)
        requires turn { HasTurn self.now pass.old }
        requires line { S.line state.now ≡ pass.old.line }
        ensures turn { HasTurn self.now pass.new }
        ensures pass { pass.new ≡ pointed pass.old }
    {
        let badge = replace(&mut pass.badge, Badge::blank());
        let mut seat: Seat<Option<S>, View<S::Record>> = badge.into_seat();
        self.table.shared.load::<Point>(&mut seat, 0);
        pass.badge = seat.into_badge();
        pass.seen = state.length();
    }

    // Commits the list that `W` names, of this many records.
    fn commit_as<W: ListBehind<S::Record>>(
        &self,
        pass: &mut Pass<S::Record>,
        _state: &S,
        count: u64,
    )
        requires turn { HasTurn self.now pass.old }
        requires line { IsOneMore W.list pass.old.line }
        requires count { count ≡ length W.list }
        ensures turn { HasTurn self.now pass.new }
        ensures pass { pass.new ≡ committed W.list pass.old }
    {
        let badge = replace(&mut pass.badge, Badge::blank());
        let mut seat: Seat<Option<S>, View<S::Record>> = badge.into_seat();
        self.table.shared.fetch_add::<Commit<W>>(&mut seat, 0, 1);
        pass.badge = seat.into_badge();
        pass.seen = count;
    }

    /// Commits the record that the worker has added to the state. Its number is the worker's own.
    pub fn commit(&self, pass: &mut Pass<S::Record>, state: &S)
        requires turn { HasTurn self.now pass.old }
        requires line { IsOneMore (S.line state.now) pass.old.line }
        ensures turn { HasTurn self.now pass.new }
        ensures pass { pass.new ≡ committed (S.line state.now) pass.old }
    {
        let count = state.length();
        self.commit_as::<Brand>(pass, state, count);
    }

    // Gives the state back. Behind it the pass knows the tide that `W` names: the state's, or, where that is as it was
    // taken, what it knew before.
    fn give_as<W: TideBehind>(&self, pass: &mut Pass<S::Record>, state: S)
        requires turn { HasTurn self.now pass.old }
        requires line { S.line state ≡ pass.old.line }
        requires marks { S.marks state ≡ pass.old.marks }
        requires tide { NoneFalls pass.old.level (S.tide state) }
        requires known { (W.tide ≡ S.tide state) ⊎ ((W.tide ≡ pass.old.tide) × (S.tide state ≡ pass.old.level)) }
        ensures turn { IsIdle self.now pass.new }
        ensures pass { pass.new ≡ given W.tide pass.old }
    {
        let shared = &self.table.shared;
        let badge = replace(&mut pass.badge, Badge::blank());
        let mut seat: Seat<Option<S>, View<S::Record>> = badge.into_seat();
        shared.load::<Fetch>(&mut seat, 0);
        let _nothing = shared.exchange(&mut seat, 0, Some(state));
        shared.swap::<Give<W>>(&mut seat, 1, 0);
        pass.badge = seat.into_badge();
        shared.wake_one(1);
    }

    /// Gives the state back, and with it the turn. All that was added to the state must be committed.
    pub fn give(&self, pass: &mut Pass<S::Record>, state: S)
        requires turn { HasTurn self.now pass.old }
        requires line { S.line state ≡ pass.old.line }
        requires marks { S.marks state ≡ pass.old.marks }
        requires tide { NoneFalls pass.old.level (S.tide state) }
        ensures turn { IsIdle self.now pass.new }
        ensures pass { pass.new ≡ given (S.tide state) pass.old }
    {
        self.give_as::<Brand>(pass, state);
    }

    /// Gives the state back as it was taken. The pass knows no more than before, so a worker calls it that only looked.
    pub fn put_back(&self, pass: &mut Pass<S::Record>, state: S)
        requires turn { HasTurn self.now pass.old }
        requires line { S.line state ≡ pass.old.line }
        requires marks { S.marks state ≡ pass.old.marks }
        requires tide { S.tide state ≡ pass.old.level }
        ensures turn { IsIdle self.now pass.new }
        ensures pass { pass.new ≡ rested pass.old }
    {
        self.give_as::<Brand>(pass, state);
    }
}

fn crosses<T: Send + Sync>(_value: &T) {}

fn moves<T: Send>(_value: &T) {}

// Turns may be shared between threads, and a pass sent to one.
fn may_cross<S: Journaled + Send>(turns: &Turns<S>, pass: &Pass<S::Record>) {
    crosses(turns);
    moves(pass);
}
