// How turns are made and their passes dealt, and how they end with all passes back.
ghost use Rattle.std.specs.Prelude.{◌≡◌, ◌≤◌, ◌<◌, ℕ, [], ◌∷◌, length, vec_capacity, All, IfOk, IfErr, Some};
ghost use Rattle.lrs_turn.specs.Lists.{BeginsWith, Each, NoneFalls};
ghost use Rattle.lrs_turn.specs.Passes.{IsIdle, OwnsEach, opened};
ghost use Rattle.lrs_turn.specs.Views.{Covers, opened_at, fresh};
ghost use Rattle.lrs_turn.specs.Rule.{meaning};

use crate::journaled::Journaled;
use crate::memory::Memory;
use crate::pass::Pass;
use crate::rule::{Deal, Keeps, Merge};
use crate::turns::{MOST_PASSES, Turns};
use crate::view::{Opening, View};
use atomic_table::{Seat, Shared, Table};
use std::alloc::Global;
use std::snapshot::Snapshot;

type Board<S, T> = Shared<Option<S>, View<T>, Opening<S>, Keeps>;

// As many passes as the seat stands for. There is room for them.
fn deal_all<S: Journaled>(
    shared: &Board<S, S::Record>,
    mut seat: Seat<Option<S>, View<S::Record>>,
    mut passes: Vec<Pass<S::Record>>,
    count: u32,
    seen: u64,
    _state: Snapshot<S>,
) -> Vec<Pass<S::Record>>
    requires table { (seat.table_id ≡ shared.now.table_id) × (shared.now.table_id.words ≡ 2)
        × (shared.now.table_id.slots ≡ 1) }
    requires seat { seat.me ≡ (fresh (meaning S.line S.marks S.tide) _state.value count count, []) }
    requires seen { seen ≡ length (S.line _state.value) }
    requires room { (passes.items ≡ []) × (0 < count) × (count ≤ vec_capacity passes) }
    ensures of { Each (λ p. p ≡ opened_at (meaning S.line S.marks S.tide) shared.now.table_id count _state.value)
        result.items }
    ensures count { length result.items ≡ count }
{
    for i in 1..count {
        let badge = shared.split_seat::<Deal>(&mut seat).into_badge();
        passes.push_reserved(Pass { badge, seen });
    }
    passes.push_reserved(Pass {
        badge: seat.into_badge(),
        seen,
    });
    passes
}

// One seat for all passes.
fn gather<S: Journaled>(
    shared: &Board<S, S::Record>,
    mut passes: Vec<Pass<S::Record>>,
) -> Seat<Option<S>, View<S::Record>>
    requires table { (shared.now.table_id.words ≡ 2) × (shared.now.table_id.slots ≡ 1) }
    requires of { Each (IsIdle (record { id = shared.now.table_id; passes = shared.now.key.passes })) passes.items }
    requires some { 0 < length passes.items }
    ensures table { (result.table_id ≡ shared.now.table_id) × (result.me.1 ≡ []) }
    ensures covers { Covers passes.items result.me.0 }
{
    let Some(first) = passes.pop() else {
        unreachable!()
    };
    let mut seat: Seat<Option<S>, View<S::Record>> = first.into_seat();
    while let Some(pass) = passes.pop() {
        shared.join_seat::<Merge>(&mut seat, pass.into_seat());
    }
    seat
}

fn back<S: Drop>(mut slots: Vec<Option<S>>) -> S
    requires { (s : S) × (slots.items ≡ Some s ∷ []) }
    ensures { slots.items ≡ Some result ∷ [] }
{
    let Some(Some(state)) = slots.pop() else {
        unreachable!()
    };
    state
}

impl<S: Journaled> Turns<S> {
    /// The turns over a state, and their passes. Without memory the state comes back.
    pub fn new(
        alloc: Global,
        state: S,
        passes: u32,
    ) -> Result<(Turns<S>, Vec<Pass<S::Record>>), (Memory, S)>
        requires { (0 < passes) × (passes ≤ MOST_PASSES) }
        ensures count { IfOk result (λ r. (length r.1.items ≡ passes) × (r.0.passes ≡ passes)) }
        ensures opened { IfOk result
            (λ r. All (λ p. p ≡ opened r.0 (S.line state) (S.marks state) (S.tide state)) r.1.items) }
        ensures back { IfErr result (λ e. e.1 ≡ state) }
    {
        let Ok(room) = Vec::with_capacity(alloc, passes as usize) else {
            return Err((Memory, state));
        };
        let Ok(mut slots) = Vec::with_capacity(alloc, 1) else {
            return Err((Memory, state));
        };
        let about = Opening {
            state: Snapshot::of(&state),
            passes,
        };
        let length = state.length();
        slots.push_reserved(Some(state));
        match Table::new(alloc, &[length, 0], slots, &about) {
            Ok((table, seat)) => {
                let dealt = deal_all(&table.shared, seat, room, passes, length, about.state);
                Ok((Turns { table }, dealt))
            }
            Err(refused) => Err((Memory, back(refused.slots))),
        }
    }

    /// The state, once all passes are back. It takes no memory.
    pub fn close(self, passes: Vec<Pass<S::Record>>) -> S
        requires idle { All (IsIdle self) passes.items }
        requires all { length passes.items ≡ self.passes }
        ensures fronts { All (λ p. BeginsWith p.front (S.line result)) passes.items }
        ensures marks { All (λ p. S.marks result ≡ p.marks) passes.items }
        ensures tide { All (λ p. NoneFalls p.tide (S.tide result)) passes.items }
        ensures alone { self.passes ≡ 1 → All (λ p. S.tide result ≡ p.tide) passes.items }
        ensures own { (opening : ℕ) × OwnsEach passes.items opening (length (S.line result)) }
    {
        let Turns { table } = self;
        let seat = gather(&table.shared, passes);
        let mut closed = table.close_with(seat);
        let state = closed.take(0);
        closed.free();
        match state {
            Some(state) => state,
            None => unreachable!(),
        }
    }
}
